//! The items of a program in the low form over places: the code of each instruction, of blocks, of functions
//! and of the start.
//!
//! `specs/` is to be read in this order: which machine registers are used, and how words and addresses stand
//! in immediates (`Numbers`); frames, one place in RAM for each function (`Frames`); how operands come into
//! registers and results to their places (`Operands`); the code of instructions and calls (`Emission`); of
//! blocks, functions and the start, and the graph that they keep to (`Functions`); how many blocks have a mark
//! (`Marked`); what is taken from the form of the program (`Formed`), and of the registers that it names
//! (`Ranges`).
//!
//! A function saves, at its entry, the registers that it changes and others need, and loads them before it
//! returns; a call saves those that it keeps and passes arguments in. An argument goes straight into the
//! callee's register where no later one reads that, and else through a word of the callee's frame.
//!
//! No block jumps to the one behind it: where a branch would be taken to that one, the opposite branch leads to
//! the other.
//!
//! Proved, each by a call with an empty body: [`graphs_are_shaped`], that the graph is reducible and calls go
//! to lower numbers; [`items_keep`], that each block's items keep to it; [`latches_jump`], that a loop's latch
//! is its one jump back; [`items_are_promised`], that so all items together are as code asks that is written in
//! two rows; [`items_have_room`], that no instruction, call or end of a block takes more than its room, however
//! many registers live across a call; [`placed_has_form`], that programs over places keep to what all this asks
//! of them.
//!
//! The crate knows no addresses of code and no machine's runs.
#![tactic(auto)]

ghost use Rattle.asm_program.specs.Laws.{GraphsAreShaped, ItemsKeep, LatchesJump, ItemsArePromised, ItemsHaveRoom, EndsHaveRoom, PlacedHasForm};

/// The graph of a program's items is reducible, and its calls go to lower numbers.
pub fn graphs_are_shaped()
    ensures { GraphsAreShaped }
{}

/// Each block has items, and they keep to the graph.
pub fn items_keep()
    ensures { ItemsKeep }
{}

/// The items of a loop's latch are one jump back to its header.
pub fn latches_jump()
    ensures { LatchesJump }
{}

/// All items of a program keep to its graph.
pub fn items_are_promised()
    ensures { ItemsArePromised }
{}

/// The items of an instruction, and those with which a block ends, take at most the bytes of its room.
pub fn items_have_room()
    ensures instructions { ItemsHaveRoom }
    ensures ends { EndsHaveRoom }
{}

/// A program over the places of its registers has the form that its items want.
pub fn placed_has_form()
    ensures { PlacedHasForm }
{}
