//! Runs images on the simulator, and notes which marks they pass: for tests.
//!
//! An image is run twice: step by step, with the marks at whose addresses it is, and then at once.
//!
//! Proved: where [`run`] answers a value and an output, the image exits with them on the input, with the default costs
//! (`specs/Ends.antt`). The marks are noted, and that they are right is not proved.
//!
//! The crate knows no program.
#![tactic(auto)]

mod running;

pub use running::{ImageRun, run};
