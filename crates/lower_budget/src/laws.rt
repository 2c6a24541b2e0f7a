// What is proved, by calls with empty bodies.
ghost use Rattle.lower_budget.specs.Names.{LoweredIsLow};
ghost use Rattle.lower_budget.specs.Costs.{FunctionsAreFew, LoopsAreKept, MarksAreFew, ReachIsBounded, RegistersAreFew, RoomIsBounded, WeightIsBounded};

/// What a program in the high form becomes is a program in the low form: its calls go to lower
/// numbers, its jumps to later blocks of their function but for those of latches, its loops nest and
/// are entered by their headers, its opening marks stand nowhere else, and all that it names is there.
pub fn lowered_is_low()
    ensures { LoweredIsLow }
{}

/// What a program becomes takes at most 16 machine instructions for each operation of it, and 64 for
/// each function.
pub fn room_is_bounded()
    ensures { RoomIsBounded }
{}

/// A program has no more functions in the low form.
pub fn functions_are_few()
    ensures { FunctionsAreFew }
{}

/// A function has at most two registers for each operation, beside its variables and the arrays that
/// it takes.
pub fn registers_are_few()
    ensures { RegistersAreFew }
{}

/// The weight of what a program becomes (the machine instructions that a run of it executes at most,
/// where loops start and functions are called as often as they may) is at most 16 times the weight of
/// the program, and 64.
pub fn weight_is_bounded()
    ensures { WeightIsBounded }
{}

/// A run of what a program becomes may pass a mark at most as often as a run of the program.
pub fn reach_is_bounded()
    ensures { ReachIsBounded }
{}

/// The loops of a function in the low form are those of its source, with their numbers and bounds, in
/// the same order.
pub fn loops_are_kept()
    ensures { LoopsAreKept }
{}

/// Blocks with marks are no more than the marks of their function, its opening mark included.
pub fn marks_are_few()
    ensures { MarksAreFew }
{}
