// The laws of the simulation.
ghost use Rattle.simulation_law.specs.Laws.{ImagesSimulate, AssignmentsSimulate};

/// The machine that runs the image of a program ends as each run of the program that has ended.
pub fn images_simulate()
    ensures { ImagesSimulate }
{}

/// The same of good runs over virtual registers, which an assignment gives places.
pub fn assignments_simulate()
    ensures { AssignmentsSimulate }
{}
