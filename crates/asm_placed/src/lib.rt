//! Code that is written in the chosen forms lies as its graph says.
//!
//! `specs/Written.antt` says when an image holds the items of functions in two rows, one in flash and one in the
//! scratchpad; that they keep to a graph is said by `asm_graphs`. The law [`code_is_placed`] joins both with the choice of
//! forms: then each function's instructions stand in a row from its base on, each of its blocks keeps what it promises,
//! functions have no address in common, and no return is taken for a far jump. By [`exits_are_listed`] blocks list their
//! exits where the claims on the image list those of `specs/Exits.antt`. From there on it is known that every
//! reached address is code and that loops fit (`asm_graphs`).
//!
//! The crate knows no program and no compiler.
#![tactic(auto)]

mod laws;

pub use laws::{code_is_placed, exits_are_listed};
