//! Room for every source: what it becomes fits into an image, and the bounds of its loops can be kept.
//!
//! Code, constants, and frames with variables each have a region of fixed size. `compile_high_definitions/specs/Limits` says which programs in
//! the high form fit them ([`limited_programs_fit`]): those with at most 256 functions and 262,144 bytes of objects of file level that are
//! within the budgets of passes. Code takes at most 16 instructions for each of 98,304 operations and 64 for each function,
//! 1,589,248 in all. Constants are objects of file level. A frame takes at most 196 bytes for the return address and machine
//! registers, 1,024 for registers that passes may add, and a word for each variable and for two temporaries of each operation: with
//! all arrays that are no constants that is at most 1,885,184 bytes, of 2,097,152. The plan of a source is such a program by the limits
//! of the language, and passes leave it one (`compile_high_law`). So whatever passes make of a source has room, over any places with no
//! more slots than registers.
//!
//! `specs/Turns` says when bounds of a loop can be kept: it has to start no more often than it may, or may not start. A search for
//! the greatest flow asks that of each loop. Proved: [`sources_have_few_loops`], that the loops of a source have numbers below
//! 2^26; [`sources_turn`], of the loops of a source with its facts, whose bounds are derived, written or those of fillings; [`carried_turn`], of a
//! program in the high form that carries on another, or a source, whose loops do, by whatever factors they were split; [`lowered_turn`] and
//! [`placed_turn`], of the low form; [`all_turn`], of the low program of a source; and [`all_are_light`], that it has a weight that leaves
//! room for the numbers of such a search.
//!
//! The crate knows no runs and no image.
#![tactic(auto)]

mod laws;

pub use laws::{
    all_are_light, all_turn, carried_turn, limited_programs_fit, lowered_turn, placed_turn,
    sources_have_few_loops, sources_turn,
};
