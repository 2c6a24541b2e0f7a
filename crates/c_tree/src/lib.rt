//! Tokens and syntax trees of C (C11 6.4 to 6.9, an integer profile).
//!
//! A token is a span of the source, and what it says is read off the source: [`Tokens`] keeps that
//! each span has the form of its kind. The tree is the grammar's, every node with its place:
//! [`Unit`] keeps that it is well formed and at most 256 nodes deep, and that its list of names has the
//! names that stand in the tree, in its markers and in its restrictions, each once. `specs/` says of
//! every tree how it is spelled, one equation a node, when it is well formed, how many nodes it has and
//! how deep it is, and what its names are.
//!
//! Proved: [`nodes`] and [`depth`] are the numbers of these definitions, the places of nodes are theirs,
//! and [`Tokens::push`] adds exactly its token. They take no memory but for the token.
//!
//! This crate knows nothing of how a source is cut into tokens, nor of how a tree is found.
#![tactic(auto)]

mod count;
pub mod declaration;
pub mod expression;
pub mod external;
mod measure;
pub mod pragma;
pub mod size;
pub mod statement;
pub mod token;
pub mod tokens;
pub mod unit;

pub use count::{depth, nodes};
pub use pragma::Pragma;
pub use token::{Token, TokenKind};
pub use tokens::Tokens;
pub use unit::Unit;
