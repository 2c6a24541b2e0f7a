// What is proved, by calls with empty bodies.
ghost use Rattle.lower_nesting.specs.Segments.{PartsCompose};
ghost use Rattle.lower_nesting.specs.NestingLaws.{LoopsStandInside};

/// Two parts of a run, each of which begins blocks of the same piece of a function and keeps the
/// bounds of the piece's loops, are such a part together.
pub fn parts_compose()
    ensures { PartsCompose }
{}

/// Each loop of a statement's code has its blocks among those of the statement, with its latch
/// behind its header.
pub fn loops_stand_inside()
    ensures { LoopsStandInside }
{}
