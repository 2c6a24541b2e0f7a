// Laws on programs over places.
ghost use Rattle.asm_code.specs.Laws.{PlacesAreThere};

/// The places of a program's registers are among the registers that hold values.
pub fn places_are_there()
    ensures { PlacesAreThere }
{}
