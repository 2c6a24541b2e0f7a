// What is proved, by calls with empty bodies.
ghost use Rattle.lower_pass_laws.specs.ReloadedLaws.{ReloadsKeep};
ghost use Rattle.lower_pass_laws.specs.SteppedLaws.{StepsKeep};
ghost use Rattle.lower_pass_laws.specs.PromotedLaws.{PromotedKeeps};
ghost use Rattle.lower_pass_laws.specs.CopiedLaws.{CopiesKeep};
ghost use Rattle.lower_pass_laws.specs.ThreadedLaws.{ThreadsKeep};

/// What a low program keeps of a program in the high form, it keeps with copies in place of loads and operations.
pub fn reloads_keep()
    ensures { ReloadsKeep }
{}

/// What a low program keeps of a program in the high form, it keeps with pointers that step.
pub fn steps_keep()
    ensures { StepsKeep }
{}

/// What a low program keeps of a program in the high form, it keeps with scalars in registers.
pub fn promoted_keeps()
    ensures { PromotedKeeps }
{}

/// What a low program keeps of a program in the high form, it keeps without its copies.
pub fn copies_keep()
    ensures { CopiesKeep }
{}

/// What a low program keeps of a program in the high form, it keeps on shorter ways.
pub fn threads_keep()
    ensures { ThreadsKeep }
{}
