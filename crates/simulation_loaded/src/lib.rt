//! The image of a program over places as the proof of its runs takes it.
//!
//! `specs/Layouts` has the layout of a program: where its frames, its arrays and the blocks of its code lie in its image, and
//! which blocks begin at an address. Proved, each by a call with an empty body: [`memory_is_planned`], that frames and arrays lie in
//! their regions, at multiples of 4 and apart from one another, that only constants lie in flash, and that each register which a call
//! keeps, or which those need that wait for the caller, is saved on the way or has a word in a frame; [`placed_keep_registers`], that
//! programs over the places of an assignment keep what this asks of their calls; and [`layouts_are_laid`], that the image holds all
//! that `simulation_relation` says of a layout: memory that is planned and open, each block's items in one of their forms, and
//! addresses at which no more than one block begins.
//!
//! The crate knows no runs.
#![tactic(auto)]

mod laws;

pub use laws::{layouts_are_laid, memory_is_planned, placed_keep_registers};
