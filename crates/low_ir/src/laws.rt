// What can be met.
ghost use Rattle.low_ir.specs.Example.{example};
ghost use Rattle.low_ir.specs.Formed.{IsLow};

/// The low form has programs with loops and calls.
pub fn example_is_low()
    ensures { IsLow example }
{}
