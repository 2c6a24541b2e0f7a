// The laws of shorter ways.
ghost use Rattle.pass_jump_threading_law.specs.Laws.{ThreadsAreFormed, ThreadsCostNoMore, ThreadsRun};

/// Each good run is a good run on shorter ways.
pub fn threads_run()
    ensures { ThreadsRun }
{}

/// A program with shorter ways keeps to the low form.
pub fn threads_are_formed()
    ensures { ThreadsAreFormed }
{}

/// It takes and executes no more instructions.
pub fn threads_cost_no_more()
    ensures { ThreadsCostNoMore }
{}
