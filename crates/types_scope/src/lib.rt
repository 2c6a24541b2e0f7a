//! The declarations that are visible at a node, and the numbers given so far.
//!
//! [`Table`] is what `types_rules` calls what is visible at a node: the names of each scope, the type of every
//! function declared so far, the objects, and the numbers of loops and markers. Each of its calls is one of
//! the definitions there. Names are looked up in maps, so a look-up takes time for the scopes that are open
//! and not for the names in them.
//!
//! This crate knows no rule and no tree.
#![tactic(auto)]

mod known;
mod table;

pub use known::{Known, narrow};
pub use table::Table;
