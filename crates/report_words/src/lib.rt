//! The words and lines of which a report's text is made, written and read: numbers in decimal, addresses in
//! hexadecimal, names and terms of sums, kept apart by one blank each.
//!
//! `specs/Words` defines them, over words of any length and numbers of any size; `specs/` besides the forms of words (`Numbers`,
//! `Shapes`) and how a text is cut (`Splitting`). What is written is the text of its words, or want of memory is answered. A line
//! that is read is judged in two steps, so that a broken form is told before a number out of range: [`fit`] says whether its words
//! have the forms that are asked, and [`are_in_range`] then whether their numbers are in range. What is above 2^120 is read as
//! 2^120, which no range reaches.
//!
//! Proved: the answers are those of the definitions. `proofs/` has the laws that the crates above
//! cite: what is written of a number or an address has its form and is read as it (`NumberLemmas`,
//! `WordLemmas`), and a word of the form is what is written of what it says (`NumberLemmas`,
//! `BackLemmas`). The crate doesn't know which lines a report has.
#![tactic(auto)]

mod fields;
mod lines;
mod names;
mod numbers;
mod shapes;

pub use fields::{Field, end_line, put_fields, put_line, put_start};
pub use lines::{read_words, split_line};
pub use names::is_name;
pub use numbers::{address, is_address, is_number, is_signed, number, signed};
pub use shapes::{Shape, are_in_range, fit};
