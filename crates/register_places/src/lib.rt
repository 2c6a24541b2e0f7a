//! The laws on places: a program in the low form runs over places as it does over virtual registers, and costs no more.
//!
//! A place is a machine register or a slot of the frame. Where registers that live together have
//! different places, each good run over virtual registers is a good run over places with the same
//! value, output and trace. So a layout has only to follow the run over places, and need not know what
//! is live.
//!
//! Proved, each as the contract of a function without a body: [`places_carry`] from conditions on single
//! instructions, [`intervals_carry`] from live intervals, [`intervals_suffice`] from any intervals that
//! cover those, [`slots_carry`] for frame slots alone, [`code_carries`] for every `LowReg`. A run goes
//! over places in as many steps, and ends in the same world. [`rounds_cover`] says when a table of what
//! is live is whole. For each loop of a good run its header starts, in all, from its least to its most times as
//! often as it starts from elsewhere than its latch ([`loops_keep_totals`]).
//!
//! Proved too: [`places_keep_room`], [`places_keep_weight`] and [`places_keep_reach`]: a program over
//! the places of any assignment takes as many machine instructions, may execute as many, and may pass each mark as often as the
//! program over virtual registers, since these count what operands need at most, wherever they are.
//!
//! This crate knows no layout, and not how places are chosen.
#![tactic(auto)]

mod laws;

pub use laws::{
    code_carries, example_runs, intervals_carry, intervals_suffice, loops_keep_totals,
    places_carry, places_keep_reach, places_keep_room, places_keep_weight, rounds_cover,
    slots_carry,
};
