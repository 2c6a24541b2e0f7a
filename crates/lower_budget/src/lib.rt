//! Programs in the low form keep to its form, as the high form's become them; how large they become, and how much their runs may do.
//!
//! `specs/` says when instructions name only what is there (`Names`), and what instructions and blocks cost (`Costs`). Proved:
//! [`lowered_is_low`]; and [`room_is_bounded`], [`functions_are_few`], [`registers_are_few`], [`weight_is_bounded`],
//! [`reach_is_bounded`], [`loops_are_kept`] and [`marks_are_few`], the contracts of functions without a body.
//!
//! This crate knows no runs.
#![tactic(auto)]

mod laws;

pub use laws::{
    functions_are_few, loops_are_kept, lowered_is_low, marks_are_few, reach_is_bounded,
    registers_are_few, room_is_bounded, weight_is_bounded,
};
