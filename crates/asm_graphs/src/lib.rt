//! Control flow graphs of laid code: where code is laid as its graph says, all that is reached is code, and its
//! loops and functions fit its flow system.
//!
//! A graph (`specs/Graphs.antt`) says which blocks of a function may follow one another, which functions
//! it may call, and which ranges of blocks are loops; it is reducible, and calls go to lower numbers.
//! Laid code (`specs/Laid.antt`) has each block's items in their place, in the order of the blocks, and
//! each function in a place of its own, in any segments of the image. Items keep to a graph, wherever they
//! lie, by `specs/Promised.antt`.
//!
//! Proved, each by a call with an empty body: [`placed_is_laid`], that code is laid where the items of each
//! function stand in a row, wherever that is (`specs/Placed.antt`); [`reached_is_code`], that a flow system of
//! the image is not refused for what is reached; [`loops_fit`], that the loops and functions lie as a search
//! for the greatest flow wants them; [`starts_are_apart`], that no two blocks begin at one address, so that
//! how often a block begins is how often its address is visited.
//!
//! The crate knows no compiler, and of items only what `asm_items` says.
#![tactic(auto)]

ghost use Rattle.asm_graphs.specs.Laid.{ReachesCode, LoopsFit, StartsApart};
ghost use Rattle.asm_graphs.specs.Placed.{PlacedIsLaid};

/// Items whose instructions stand in a row, function by function, are laid code.
pub fn placed_is_laid()
    ensures { PlacedIsLaid }
{}

/// Each address of laid code that is reached from the beginning of a function is code.
pub fn reached_is_code()
    ensures { ReachesCode }
{}

/// The loops and functions of laid code fit its flow system.
pub fn loops_fit()
    ensures { LoopsFit }
{}

/// No two blocks of laid code begin at one address.
pub fn starts_are_apart()
    ensures { StartsApart }
{}
