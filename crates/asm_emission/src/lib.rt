//! Makes the code of a program over places, piece by piece: each function puts items behind others.
//!
//! `placed` has operands, addresses and instructions over places; `words` the instructions for words and addresses,
//! `operands` and `addresses` how they come into registers, `plain` the code of an instruction, `calls` what stands
//! before and behind a call, `entries` how a function begins and returns, and `starts` the start code.
//!
//! Proved: each of them makes the code that `asm_program` defines, for any frames and addresses of arrays, or memory ran
//! out. Places that are registers are to be among those that hold values. The time is linear in the code, but that a
//! call passes an argument in one of those registers only after a look at its later ones.
//!
//! The crate knows no program, and no addresses of code.
#![tactic(auto)]

mod addresses;
mod calls;
mod entries;
mod numbers;
mod operands;
mod operators;
mod placed;
mod plain;
mod starts;
mod words;

pub use addresses::{Reached, emit_address};
pub use calls::{emit_homes, emit_late, emit_pass, emit_returns, emit_value, kept_among};
pub use entries::{emit_entry, emit_exit, leaves_at_once};
pub use numbers::{FIRST_FREE, RESULT, SECOND_FREE, is_reached};
pub use operands::{emit_into, emit_operand, emit_result, operand_register};
pub use placed::{
    PlacedAddress, PlacedBase, PlacedOperand, PlacedPlain, place_address, place_of, place_operand,
    place_some,
};
pub use plain::emit_plain;
pub use starts::{no_operation, start_items};
