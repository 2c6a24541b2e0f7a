//! What the text of a token says: constants (C11 6.4.4.1, 6.4.4.4), and pragmas (C11 6.10.6, 6.10.9).
//!
//! An integer constant is decimal, octal or hexadecimal digits with a suffix of u and l, and has a
//! value of at most 4294967295 and a type. A character constant is one byte or one escape between
//! quotes, of a value below 256. Of a pragma there are the blanks and comments within it, its text, and
//! the words and names in that.
//!
//! Proved: [`is_integer`] and [`is_character`] answer exactly whether a text has the form that
//! `c_tree` defines, [`integer`] and [`character`] exactly the value that it defines, and each function
//! of pragmas exactly what it defines. None of them takes memory.
//!
//! This crate knows nothing of how a source is cut into tokens, of where in it a constant may stand, nor
//! of what a pragma asks for.
#![tactic(auto)]

mod blanks;
mod digits;
mod form;
mod operator;
mod texts;
mod value;
mod words;

pub use blanks::behind_blanks;
pub use form::{is_character, is_integer};
pub use operator::{Operator, read_operator};
pub use texts::{directive_text, text};
pub use value::{character, integer};
pub use words::{behind_first_word, first_word};
