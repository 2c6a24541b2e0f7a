//! What the visits of a run tell of the run over places that it follows: its blocks, its loops and its marks.
//!
//! Proved, each by a call with an empty body: [`starts_are_counted`], that the start of a block is visited as often as the block
//! begins in the run over places; [`ends_are_exits`], that a run which ends as one over places does ends at a listed exit, and
//! comes to none before; and [`loops_are_kept`], that it keeps the claim on a loop which keeps its bounds over places, where its
//! jump back is visited as often as its latch begins. And [`marks_are_counted`], that the addresses of a mark are visited, all
//! together, as often as the run over places that the machine follows passes the mark; [`placed_keep_marks`], that this is
//! how often the run of the low program passes it, over virtual registers; [`places_are_few`], that a mark has one
//! address for each block that it stands in; [`all_places_are_few`], that all marks together have no more than blocks have
//! marks; and [`placed_stand`], that over virtual registers as many blocks have some.
//!
//! The crate knows not how a machine comes to follow a run.
#![tactic(auto)]

mod laws;

pub use laws::{
    all_places_are_few, ends_are_exits, loops_are_kept, marks_are_counted, placed_keep_marks,
    placed_stand, places_are_few, starts_are_counted,
};
