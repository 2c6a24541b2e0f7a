//! What the tokens of a source say, in order, with each name by its number.
//!
//! A [`Lexeme`] is what a token says and where it says it. [`read_words`] reads off the source what each
//! token says: a keyword or punctuator itself, an integer constant its value and type, a character
//! constant its value, a pragma its text, and a name its number in the list of the names that stand in
//! the source, in its markers and in its restrictions. Numbers go up in the order in which the names
//! first stand there.
//!
//! Proved: with the names in place of their numbers the words say exactly what `c_tree` defines
//! that the tokens say, at the same places; the list is exactly that of the names that stand there,
//! each once and in order. The only error is want of memory.
//!
//! This crate knows nothing of how a source is cut into tokens, nor of grammar.
#![tactic(auto)]

mod lexeme;
mod numbering;
mod word;

pub use lexeme::{Lexeme, Word};
pub use word::{Words, read_words};
