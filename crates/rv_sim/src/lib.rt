//! The simulator: a machine that runs an image on an input, step by step, and counts its cycles.
//!
//! `Machine::new` loads an image, `step` takes one step, and `run` steps until an ending or a limit
//! of cycles. Contracts see a machine as its state of `rv_core`'s definition (registers, memory with
//! the segments' places and rights, what is left of the input, output, the last instruction, cycles,
//! pc and whether it has exited), its costs and its room for output.
//!
//! Proved: each step is that of the definition, or changes nothing and says why; a run stops exactly
//! where the definition says, and answers an exit exactly where the image's run exits within the
//! limits; behind any number of steps the state is that of the image's run after the steps that were
//! taken. A step takes no memory. Speed is measured, not proved: the
//! instructions of what can be executed are decoded once, and a step looks at no more than the
//! segments' bounds.
//!
//! The crate knows nothing of files, of ELF or of a compiler.
#![tactic(auto)]

mod block;
mod blocks;
mod calls;
mod charge;
mod code;
mod ending;
mod fetching;
mod issue;
mod machine;
mod numbers;
mod perform;
mod registers;
mod stepping;

pub use ending::Ending;
pub use machine::Machine;
