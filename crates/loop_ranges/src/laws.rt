// What is proved, by calls with empty bodies.
ghost use Rattle.loop_ranges.specs.Reach.{WorthsStayNear, WorthsReach};
ghost use Rattle.loop_ranges.specs.Beside.{LooseWalkPays};

/// As long as no loop is settled, worths stay near the loose ones.
pub fn worths_stay_near()
    ensures { WorthsStayNear }
{}

/// How far worths reach when the loops are settled.
pub fn worths_reach()
    ensures { WorthsReach }
{}

/// The loose walk gives loose worths and turns of a function beside it.
pub fn loose_walk_pays()
    ensures { LooseWalkPays }
{}
