//! The text of a syntax tree, for tests and for those who want to see one.
//!
//! A tree is one line, each node in brackets of its own behind the word of its form. So the line of
//! `int f(){x=a+b*c;}` is `(unit (function [int] f (body (eval (= x (+ a (* b c)))))))`. A name, a
//! number and a character in quotes by its value are leaves without brackets, square brackets hold
//! specifiers or a size, and `-` stands for what the head of a `for` lacks. With places, `@` and the
//! byte at which a node begins stand behind its word or leaf.
//!
//! Nothing is proved of the text but that writing it is safe and ends; the tests of `parse_cases` compare
//! it with lines that were derived by hand.
#![tactic(auto)]

mod declaration;
mod expression;
mod printer;
mod statement;
mod unit;

pub use printer::Places;
pub use unit::line_of;
