//! The image of a program over places and the claims on it.
//!
//! `specs/Images` has the laid program of an image, and what holds of it and its claims together. Proved:
//! [`images_have_claims`], the contract of a function without a body.
//!
//! This crate knows no runs, and not how an image is made.
#![tactic(auto)]

mod laws;

pub use laws::images_have_claims;
