// What a program keeps where words are in registers.
ghost use Rattle.pass_constant_hoisting.specs.Carried.{HeldCarries, HeldIsCheap, HeldIsLow};

/// Each good run is one over words in registers, with the same value and the same world.
pub fn runs_are_carried()
    ensures { HeldCarries }
{}

/// A program with words in registers keeps to the low form.
pub fn form_is_kept()
    ensures { HeldIsLow }
{}

/// Words in registers cost at most 8 machine instructions for each loop.
pub fn costs_are_few()
    ensures { HeldIsCheap }
{}
