//! A program that is laid: its image, the claims on it, and the lists that a search and a choice of what to place want.
//!
//! `specs/Laid` says which image, claims and lists those of a program over its places are. That they are made so is the
//! promise of `low_layout`; who builds on a layout needs the type and these definitions alone.
#![tactic(auto)]

mod laid;

pub use laid::{Claimed, Laid, Lists};
