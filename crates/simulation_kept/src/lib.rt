//! Runs of the image of a program keep the claims on it.
//!
//! Proved, by calls with empty bodies: [`regions_are_kept`], that where the machine that runs the image of a program has ended as a
//! run over places, each load and store that it made touched a region that the line of its address names. For each flow system of the
//! image and the claims: [`images_keep_claims`], that a run of the machine which has ended as a run over places, whose loops keep
//! their bounds in all, keeps the claims; [`assignments_keep_claims`], that as each good run over virtual registers the machine ends
//! so; and [`assignments_end_in_time`], that then it takes no more cycles than an accepted certificate says.
//!
//! The crate knows not how a machine comes to follow a run.
#![tactic(auto)]

mod laws;

pub use laws::{
    assignments_end_in_time, assignments_keep_claims, images_keep_claims, regions_are_kept,
};
