// What is proved, by calls with empty bodies.
ghost use Rattle.claims_definition.specs.AccessLaws.{ItemsAreTouched, LinesHold, PlacedIsNamed};
ghost use Rattle.claims_definition.specs.ClaimLaws.{AccessesAreListed, AccessesHaveLines, ClaimsAreFew, ClaimsAreSound, ExitsAreCalls, LoopsAreClaimed, MarksHavePlaces, PlacesAreApart, RangesHold};
ghost use Rattle.claims_definition.specs.Shapes.{ClaimsFit};
ghost use Rattle.claims_definition.specs.MovableLaws.{ArraysAreMovable, FunctionsAreMovable};

/// Each load and store of a program's items is among what touches memory, and no other item is.
pub fn items_are_touched()
    ensures { ItemsAreTouched }
{}

/// Accesses in the order of their addresses have lines of regions, none of which is bad; each lies in
/// one that has exactly its regions, and there are no more lines than accesses.
pub fn lines_hold()
    ensures { LinesHold }
{}

/// A program in the low form over its places names arrays and claims that are there.
pub fn placed_is_named()
    ensures { PlacedIsNamed }
{}

/// None of the claims is bad by itself: exits, lines of regions and loops stand in the order of their
/// addresses, each at a multiple of 4.
pub fn claims_are_sound()
    ensures { ClaimsAreSound }
{}

/// Each load and store lies in a line that has exactly the regions of the arrays that it may touch, or
/// RAM alone where it touches a frame; there are no more lines than loads and stores.
pub fn accesses_have_lines()
    ensures { AccessesHaveLines }
{}

/// The loop claims are those of the loops of the program, each with its number and bounds.
pub fn loops_are_claimed()
    ensures { LoopsAreClaimed }
{}

/// The places of a mark are where its blocks begin, in the order of their addresses.
pub fn marks_have_places()
    ensures { MarksHavePlaces }
{}

/// No two marks share an address.
pub fn places_are_apart()
    ensures { PlacesAreApart }
{}

/// The ranges of functions ascend and share no address; each begins with its function's first block, and
/// the start code alone has no name.
pub fn ranges_hold()
    ensures { RangesHold }
{}

/// There are no more exits and no more lines of regions than instructions, and no more loop claims than
/// loops.
pub fn claims_are_few()
    ensures { ClaimsAreFew }
{}

/// Whatever an item of a block may access is among the accesses, at the item's address.
pub fn accesses_are_listed()
    ensures { AccessesAreListed }
{}

/// Where an image holds a laid program, and its loop claims have their shapes, loops and functions lie
/// as a search for the greatest flow wants them.
pub fn claims_fit()
    ensures { ClaimsFit }
{}

/// Each listed exit of an image that holds a laid program is an ECALL.
pub fn exits_are_calls()
    ensures { ExitsAreCalls }
{}

/// The size of a function is a multiple of 4 and at least what it takes, and its instructions ascend.
pub fn functions_are_movable()
    ensures { FunctionsAreMovable }
{}

/// The size of an array is a multiple of 4, and the accesses that touch it alone ascend.
pub fn arrays_are_movable()
    ensures { ArraysAreMovable }
{}
