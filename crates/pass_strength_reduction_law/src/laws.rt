// The laws of pointers that step.
ghost use Rattle.pass_strength_reduction_law.specs.Laws.{StepsAreFormed, StepsPassMarks, StepsRun};

/// Each good run is a good run through pointers that step.
pub fn steps_run()
    ensures { StepsRun }
{}

/// A program with pointers that step keeps to the low form.
pub fn steps_are_formed()
    ensures { StepsAreFormed }
{}

/// It passes marks as often.
pub fn steps_pass_marks()
    ensures { StepsPassMarks }
{}
