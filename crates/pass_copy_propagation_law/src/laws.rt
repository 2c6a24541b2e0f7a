// The laws of copies.
ghost use Rattle.pass_copy_propagation_law.specs.Laws.{CopiesAreFormed, CopiesCostNoMore, CopiesRun};

/// Each good run is a good run without copies.
pub fn copies_run()
    ensures { CopiesRun }
{}

/// A program without copies keeps to the low form.
pub fn copies_are_formed()
    ensures { CopiesAreFormed }
{}

/// It takes and executes no more instructions.
pub fn copies_cost_no_more()
    ensures { CopiesCostNoMore }
{}
