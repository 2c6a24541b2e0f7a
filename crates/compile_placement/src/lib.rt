//! A choice of items for the scratchpad, as a placement of the program: what it moves, and how much that takes.
//!
//! `specs/Laws.antt` has what is promised of the items of a program with their gains, and of a placement that has the
//! numbers of some of them. Proved, each by a call with an empty body: [`items_are_apart`], that no two items have one
//! number; [`items_are_whole`], that their sizes are whole words; [`items_are_few`], that there are at most as many as
//! functions and words of arrays that aren't local; [`choices_move_items`], that the placement moves items
//! alone; [`choices_take`], that the functions and arrays which it names take what the chosen items do; so that nothing
//! can be placed and the best of what fits can be ([`nothing_can_be_placed`], [`choices_can_be_placed`]), which takes at
//! most the capacity ([`choices_fit`]).
//!
//! The crate knows no choice, and not how one is made.
#![tactic(auto)]

mod laws;

pub use laws::{
    choices_can_be_placed, choices_fit, choices_move_items, choices_take, items_are_apart,
    items_are_few, items_are_whole, nothing_can_be_placed,
};
