//! From the bytes of a source to its typed program and its facts.
//!
//! `read_source` is tokens, tree, types, call ranks and flow facts, one after the other. Proved: its
//! answer is the typed program of the one tree that the source is the spelling of, with its facts
//! (`facts_sources`);
//! and a refusal is that of the first step that has one, with its place in the source. Want of
//! memory alone is left open, and says nothing of the source: `facts_laws` proves that a source has
//! one program with facts or one refusal.
//!
//! The crate knows no files and no status, and nothing of what is made of a program.
#![tactic(auto)]

mod reading;
mod refusal;

pub use reading::{Source, read_source};
pub use refusal::Refusal;
