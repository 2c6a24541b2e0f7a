//! The forward simulation of programs in the low form by machines that run their images.
//!
//! Proved, by calls with empty bodies: [`images_simulate`], that where a run over places has ended, the machine that runs the image
//! of the program has ended at an exit, with the same value, output and blocks that began, no call still open and each return to
//! where its call says; [`assignments_simulate`], that it has so where a good run over virtual registers has ended that an
//! assignment gives places.
//!
//! How the machine follows the run from its start to its end stands in `proofs/`:
//!
//! - behind a return, the start code ends the run where the first function has returned (`Home`); an activation that waited goes on
//!   with its values where they were (`Resuming`); a block that returns leaves its function, at the return itself or in the block
//!   behind the others (`Leaving`);
//! - from the end of a block to the beginning of another, by a jump, which may fall into the next block, or a branch (`Ends`);
//! - into a call, whose arguments go to the places of the callee's parameters or to words of its frame, and from there into registers
//!   (`Passing`, `Late`); the machine comes to the callee's first block (`Calls`), where the caller waits and the relation holds again
//!   (`Follows`);
//! - each step of a run, and so where a run over places has ended, the machine has ended with the same value, output and blocks that
//!   began (`Running`);
//! - from the beginning: arrays stand in the memory of an image as a run has them at first (`FirstArrays`), the start code leads to
//!   main's first block (`Starting`), and both of the image of a program (`Imaged`).
#![tactic(auto)]

mod laws;

pub use laws::{assignments_simulate, images_simulate};
