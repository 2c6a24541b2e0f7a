// What the translation makes of a program.
ghost use Rattle.std.specs.Prelude.{◌≡◌};
ghost use Rattle.lower_definition.specs.Example.{example, example_lowered};
ghost use Rattle.lower_definition.specs.Programs.{lowered};

/// A loop over arrays, in a program with a function that nobody calls.
pub fn example_is_lowered()
    ensures { lowered example ≡ example_lowered }
{}
