//! Where everything lies that a program over places keeps in memory, and which registers its functions save.
//!
//! `specs/` is to be read in this order: sets of registers, as tables (`Registers`); which registers those that wait for
//! a function need to have back, from callers to callees, and so which ones a function saves, and which have a word in
//! its frame for the time of a call (`Needs`); frames, one behind the other in the order of the functions, so that those
//! of callees come first (`Frames`); and the memory of a program with a placement (`Memories`): its frames, from the
//! beginning of RAM on, and the addresses of its arrays, in the rows of `image_segments` and where it begins them;
//! and placements that have the functions and arrays of some numbers in the scratchpad, or items alone (`Placings`).
//!
//! With one caller, a function saves exactly what the call keeps and the function writes; what no caller needs is never
//! saved.
//!
//! Proved: [`frames_are_saving`], that functions save registers which hold values, and no more than there are, and
//! [`frames_are_there`], that each function has a frame and that frames lie in RAM. That no two of all these overlap
//! is proved above, in `simulation_loaded`.
//!
//! The crate knows no code.
#![tactic(auto)]

mod laws;

pub use laws::{frames_are_saving, frames_are_there};
