//! The stores and sinks that there are.
//!
//! Those in memory tell their contents, so that a contract can speak of them: `CalmStore` and `CalmSink` never fail, and
//! `MemStore` and `MemSink` fail by a list. The adapters `FsStore` and `OutSink`, over real files and the standard output, tell
//! none, and are the trusted edge.
//!
//! Proved: each keeps the contract of its trait, with the bytes and the counts that it is seen to have (`specs/States`).
#![tactic(auto)]

mod calm;
mod failing;
mod file_list;
mod system;

pub use calm::{CalmSink, CalmStore};
pub use failing::{MemSink, MemStore};
pub use system::{FsStore, OutSink};
