//! Live intervals: between which places of its function each virtual register lives.
//!
//! The places of a function are its instructions and the ends of its blocks, in order. A register has a place where it is
//! written, and where a way through the blocks leads from behind the place to a read of it with no write before. Its interval
//! goes from the least of its places to the greatest.
//!
//! The code is read once (`accesses`, `sources`): by register its reads and writes, and by block those that lead to it. Then a
//! walk for each register (`walk`) goes over its reads and writes, and from the blocks that begin with a read to those that lead
//! to them, as long as the register isn't accessed there. A block is visited only where the register is live at its beginning or
//! behind it, and none of its instructions is read again: the time is linear in the code and in the blocks through which
//! registers live.
//!
//! Proved: [`intervals_of`] gives for each register of a function, and [`live`] for each of a program, the interval of the
//! definition (`low_ir/specs/Live`), or no interval where it has no place. `Memory` is free.
//!
//! The crate knows no machine registers and no slots.
#![tactic(auto)]

mod accesses;
mod finding;
mod interval;
mod lives;
mod reading;
mod sources;
mod walk;

pub use finding::{intervals_of, live};
pub use interval::Interval;
pub use lives::Live;
