// The laws of choices.
ghost use Rattle.compile_placement.specs.Laws.{ChoicesCanBePlaced, ChoicesFit, ChoicesMoveItems, ChoicesTake, ItemsAreApart, ItemsAreFew, ItemsAreWhole, NothingCanBePlaced};

/// No two items have one number.
pub fn items_are_apart()
    ensures { ItemsAreApart }
{}

/// The sizes of items are whole words.
pub fn items_are_whole()
    ensures { ItemsAreWhole }
{}

/// There are at most as many as functions and words of arrays that aren't local, where no array is empty.
pub fn items_are_few()
    ensures { ItemsAreFew }
{}

/// A placement that has the numbers of some items moves items alone.
pub fn choices_move_items()
    ensures { ChoicesMoveItems }
{}

/// The functions and arrays that it names take what those items do.
pub fn choices_take()
    ensures { ChoicesTake }
{}

/// Where a program has room, it has room with nothing in the scratchpad.
pub fn nothing_can_be_placed()
    ensures { NothingCanBePlaced }
{}

/// And with the best choice of what fits.
pub fn choices_can_be_placed()
    ensures { ChoicesCanBePlaced }
{}

/// Which takes at most the capacity.
pub fn choices_fit()
    ensures { ChoicesFit }
{}
