// What is proved, by calls with empty bodies.
ghost use Rattle.simplex_laws.specs.TableLaws.{NoRowIsLeft, PivotsKeepTables};
ghost use Rattle.simplex_laws.specs.RoundLaws.{RoundsEndWell};

/// A law: a pivot by the least-number rule keeps what each table keeps.
pub fn pivots_keep_tables()
    ensures { PivotsKeepTables }
{}

/// A law: where no row is to be left, the variable has no positive number.
pub fn no_row_is_left()
    ensures { NoRowIsLeft }
{}

/// A law: a round ends with an optimum, or shows that no weights keep the facts.
pub fn rounds_end_well()
    ensures { RoundsEndWell }
{}
