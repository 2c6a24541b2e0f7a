// The laws of jumps back.
ghost use Rattle.asm_backs.specs.Laws.{LatchesAreCounted, LatchesAreVisited};

/// The last instruction of a latch is counted as often as its first.
pub fn latches_are_counted()
    ensures { LatchesAreCounted }
{}

/// The last instruction of a latch is visited as often as its first.
pub fn latches_are_visited()
    ensures { LatchesAreVisited }
{}
