// What is proved, by calls with empty bodies.
ghost use Rattle.simulation_marks.specs.VisitLaws.{StartsAreCounted, EndsAreExits, LoopsAreKept};
ghost use Rattle.simulation_marks.specs.MarkLaws.{AllPlacesAreFew, MarksAreCounted, PlacedKeepMarks, PlacedStand, PlacesAreFew};

/// The start of a block is visited as often as the block begins.
pub fn starts_are_counted()
    ensures { StartsAreCounted }
{}

/// The last visit alone is at a listed exit.
pub fn ends_are_exits()
    ensures { EndsAreExits }
{}

/// A claim on a loop is kept where the loop keeps its bounds in all its entries together.
pub fn loops_are_kept()
    ensures { LoopsAreKept }
{}

/// The addresses of a mark are visited, all together, as often as the run over places passes the mark.
pub fn marks_are_counted()
    ensures { MarksAreCounted }
{}

/// A program over places counts its marks as its program over virtual registers does.
pub fn placed_keep_marks()
    ensures { PlacedKeepMarks }
{}

/// A mark has one address for each block that it stands in.
pub fn places_are_few()
    ensures { PlacesAreFew }
{}

/// All marks together have no more addresses than blocks have marks.
pub fn all_places_are_few()
    ensures { AllPlacesAreFew }
{}

/// Over places as many blocks have marks as over virtual registers.
pub fn placed_stand()
    ensures { PlacedStand }
{}
