// The laws of kept claims.
ghost use Rattle.simulation_kept.specs.Laws.{RegionsAreKept, AssignmentsEndInTime, AssignmentsKeepClaims, ImagesKeepClaims};

/// A run that has ended as one of its program touches only what the lines of regions name.
pub fn regions_are_kept()
    ensures { RegionsAreKept }
{}

/// A run of the machine that has ended as a run over places keeps the claims.
pub fn images_keep_claims()
    ensures { ImagesKeepClaims }
{}

/// As each good run over virtual registers, the machine ends and has kept the claims.
pub fn assignments_keep_claims()
    ensures { AssignmentsKeepClaims }
{}

/// Then it takes no more cycles than an accepted certificate says.
pub fn assignments_end_in_time()
    ensures { AssignmentsEndInTime }
{}
