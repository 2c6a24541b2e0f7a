//! The costs of a machine, read from a TOML document.
//!
//! A table of costs is a document with an integer for each of fifteen keys, all but `stall` wanted,
//! and no other key. `specs/Keys.antt` lists the keys with their numbers and their least costs,
//! `specs/Numbers.antt` says what a document gives a key, and `specs/Faults.antt` which fault a
//! document has first. The document is that of the grammar of the `toml` crate.
//!
//! Proved: `read` answers the costs of a document without a fault, and else exactly its first
//! fault; bytes are `NotToml` exactly where they are no UTF-8 or the grammar refuses them; want of
//! memory alone is left open. Two laws say that the bytes decide: they give one table of costs, and
//! none where they are refused.
//!
//! The crate knows nothing of files, nor of what a cost is charged for.
#![tactic(auto)]

mod faults;
mod keys;
mod laws;
mod numbers;
mod reading;

pub use faults::TableFault;
pub use laws::{one_fault, one_table};
pub use reading::read;
