// What settling a function gives.
ghost use Rattle.loop_walks.specs.Laws.{SettlingPays};

/// A law: in a function that is settled each step is paid, and so is each jump back with the multipliers of its loop.
pub fn settling_pays()
    ensures { SettlingPays }
{}
