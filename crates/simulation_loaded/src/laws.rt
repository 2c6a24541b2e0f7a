// What is proved, by calls with empty bodies.
ghost use Rattle.simulation_loaded.specs.MemoryLaws.{MemoryIsPlanned, PlacedKeepRegisters};
ghost use Rattle.simulation_loaded.specs.LoadedLaws.{LayoutsAreLaid};

/// Frames and arrays lie as a plan for their program wants it.
pub fn memory_is_planned()
    ensures { MemoryIsPlanned }
{}

/// Calls of a program over the places of an assignment keep registers that hold values.
pub fn placed_keep_registers()
    ensures { PlacedKeepRegisters }
{}

/// The image of a program holds what its layout says.
pub fn layouts_are_laid()
    ensures { LayoutsAreLaid }
{}
