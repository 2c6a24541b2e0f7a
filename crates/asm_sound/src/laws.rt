// What is proved, by calls with empty bodies.
ghost use Rattle.asm_sound.specs.SoundLaws.{ItemsAreSound};
ghost use Rattle.asm_sound.specs.Sizes.{LongestHasRoom, ChosenHasRoom};
ghost use Rattle.asm_sound.specs.Functions.{SizesAreKept};

/// The items of a program over places keep the ranges of their instructions' fields.
pub fn items_are_sound()
    ensures { ItemsAreSound }
{}

/// The items of a program in their longest forms take at most 4 bytes for each instruction of its room.
pub fn longest_has_room()
    ensures { LongestHasRoom }
{}

/// So do the forms that are chosen for them, wherever their rows lie.
pub fn chosen_has_room()
    ensures { ChosenHasRoom }
{}

/// The size of a function is the same wherever arrays lie.
pub fn sizes_are_kept()
    ensures { SizesAreKept }
{}
