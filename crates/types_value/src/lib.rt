//! The integer types of C, their conversions and their operators on words of 32 bits (C11 6.2.5, 6.3.1, 6.5).
//!
//! A value is a word. `int` and `long` have 32 bits in two's complement, `short` has 16, `char` has 8 and no
//! sign, and a value of a narrower type is the word of its number.
//!
//! Proved: promotions, usual conversions, conversions and operators are those of `specs/`, and an operator
//! is undefined exactly where `specs/Operators` says so, with the first of its causes. Nothing takes memory.
//!
//! This crate knows nothing of trees.
#![tactic(auto)]

mod arithmetic;
pub mod kind;
pub mod operator;

pub use kind::Kind;
pub use operator::{Operator, Sign, Undefined};
