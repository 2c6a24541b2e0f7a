// The laws of tables of costs: the bytes decide.
ghost use Rattle.std.specs.Prelude.{◌≡◌, ℕ, List};
ghost use Rattle.rv_core.specs.Table.{Table};
ghost use Rattle.cost_table.specs.declared.faults.TableFault.{TableFault};
ghost use Rattle.cost_table.specs.Tables.{IsTable, IsRefused};

/// Bytes are a table of one machine's costs, and then no refusal holds of them.
pub fn one_table()
    ensures one { (bytes : List ℕ) (c d : Table) → IsTable bytes c → IsTable bytes d → c ≡ d }
    ensures never_refused { (bytes : List ℕ) (c : Table) (f : TableFault) → IsTable bytes c → IsRefused bytes f → ⊥ }
{}

/// Bytes are refused for one fault.
pub fn one_fault()
    ensures { (bytes : List ℕ) (f g : TableFault) → IsRefused bytes f → IsRefused bytes g → f ≡ g }
{}
