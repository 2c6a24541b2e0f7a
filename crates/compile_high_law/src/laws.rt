// What is proved, by calls with empty bodies.
ghost use Rattle.compile_high_law.specs.Laws.{PassesCarry, PassesKeepLimits, PlansAreCarried, PlansKeepLimits};

/// The plan of a source keeps the limits.
pub fn plans_keep_limits()
    ensures { PlansKeepLimits }
{}

/// So does what passes make of it.
pub fn passes_keep_limits()
    ensures { PassesKeepLimits }
{}

/// The plan of a source is carried.
pub fn plans_are_carried()
    ensures { PlansAreCarried }
{}

/// So is what one more pass makes of what is.
pub fn passes_carry()
    ensures { PassesCarry }
{}
