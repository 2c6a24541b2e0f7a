// The laws of derived bounds.
ghost use Rattle.counting_laws.specs.Laws.{DerivedHold, FactsHave, LoopsFind, WiderIsSame};

/// Each loop finds by its number the bounds that are derived for it, and none where none are.
pub fn loops_find()
    ensures { LoopsFind }
{}

/// The facts that come of the bounds that are derived have them.
pub fn facts_have()
    ensures { FactsHave }
{}

/// Under facts with the derived bounds no run is broken at a loop for which they are derived.
pub fn derived_hold()
    ensures { DerivedHold }
{}

/// Wider bounds at such loops leave every meaning as it is.
pub fn wider_is_same()
    ensures { WiderIsSame }
{}
