// What is proved, by calls with empty bodies.
ghost use Rattle.layout_law.specs.Laws.{ClaimsAreCounted, ItemsKeepSizes, ItemsLie, RegionsAreFilled, SegmentsAreSmall};
ghost use Rattle.layout_relation.specs.Kept.{LayoutsKeep};

/// An image has a segment that isn't empty in each region that a line of regions names, where each array
/// has elements (C11 6.7.6.2).
pub fn regions_are_filled()
    ensures { RegionsAreFilled }
{}

/// Segments keep at most 4 bytes for each instruction, and the bytes of the arrays that aren't local; those
/// of the scratchpad take at most the sizes of the items that are placed there.
pub fn segments_are_small()
    ensures { SegmentsAreSmall }
{}

/// Each function and each array lies in the region that the placement says.
pub fn items_lie()
    ensures { ItemsLie }
{}

/// There are at most as many exits as instructions, at most as many lines of regions, and at most as many
/// loop claims as loops.
pub fn claims_are_counted()
    ensures { ClaimsAreCounted }
{}

/// Items have the numbers and sizes that the program says, whatever is placed.
pub fn items_keep_sizes()
    ensures { ItemsKeepSizes }
{}

/// The image of a program, with the claims on it, keeps what `specs/Kept.antt` says.
pub fn layouts_keep()
    ensures { LayoutsKeep }
{}
