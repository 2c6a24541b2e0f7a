// The laws of loads.
ghost use Rattle.pass_common_subexpressions_law.specs.Laws.{ReloadsAreFormed, ReloadsCostNoMore, ReloadsRun};

/// Each good run is a good run with copies in place of loads.
pub fn reloads_run()
    ensures { ReloadsRun }
{}

/// A program with copies in place of loads keeps to the low form.
pub fn reloads_are_formed()
    ensures { ReloadsAreFormed }
{}

/// It takes and executes no more instructions.
pub fn reloads_cost_no_more()
    ensures { ReloadsCostNoMore }
{}
