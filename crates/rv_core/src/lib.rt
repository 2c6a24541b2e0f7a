//! RV32IM without FENCE and EBREAK: its instruction table, words, costs, regions and images, and
//! the definition of the machine that runs them.
//!
//! The table of 46 rows stands once, in `src/table.rt`: format, opcode, funct3, funct7, class of
//! cost and effect. Encoding, decoding, costs and the machine's definition all read it, and
//! `Op::row` is proved to be the table of `specs/Rows.antt`.
//!
//! Proved: `encode` gives the word of the format tables and `decode` finds the row that matches,
//! `None` where there is none; each undoes the other for every instruction and every word.
//! `region`, `cost`, `wait` and `default_costs` are their tables, and the functions of words are
//! those of the manual. An `Instr` keeps the field ranges of its row, a `Costs` those of its fields,
//! and an `Image` that it can be loaded; `Image::instruction` is the instruction at an address.
//!
//! The machine itself is a definition here and no code: `specs/Memory.antt`, `Machine.antt` (one
//! step), `Runs.antt` (a run of n steps, with the moves taken) and `Exits.antt` (what a run comes
//! to). Its laws are functions without a body, in `src/laws.rt`: a run has one ending, code and the
//! places of blocks never change, and what is read behind a store. The crate knows nothing of
//! files, of ELF, of a flow system or of a compiler.
#![tactic(auto)]

mod addresses;
mod arithmetic;
mod code;
mod costs;
mod defaults;
mod fields;
mod image;
mod instr;
mod laws;
mod op;
mod pricing;
mod reading;
mod regions;
mod row;
mod signs;
mod table;
mod words;

pub use addresses::region;
pub use costs::Costs;
pub use defaults::default_costs;
pub use fields::Fields;
pub use image::{Image, Segment};
pub use instr::Instr;
pub use laws::{
    code_stays, decode_of_encode, frames_stay, number_behind_write, one_finish, read_behind_store,
};
pub use op::Op;
pub use pricing::{cost, wait};
pub use reading::decode;
pub use regions::Region;
pub use row::{Alu, Class, Condition, Effect, Format, Row, Width};
pub use words::encode;
