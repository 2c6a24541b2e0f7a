// What the low program of a program keeps of it.
ghost use Rattle.lower_law.specs.Programs.{LoweredKeeps, LoweredSpares};

/// Of each program in the high form its low program keeps the runs, the functions, the loops, the
/// marks and the arrays, within the budgets of the low form.
pub fn lowered_keeps()
    ensures { LoweredKeeps }
{}

/// And its functions have none of the spare registers.
pub fn lowered_spares()
    ensures { LoweredSpares }
{}
