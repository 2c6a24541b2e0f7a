//! What the image of a program in the low form keeps of it, with the claims on it, in one record, and how much it takes.
//!
//! What is kept is said in `layout_relation`, for every assignment of places and every placement: a machine that runs the image ends
//! as each good run of the program, keeps the claims, and visits the addresses of a mark as often as the run passes it; no
//! claim is bad, and each load and store lies in a line of its regions, in each of which the image has a segment; loops, marks, functions and
//! arrays lie where the lists say, and in the regions that the placement says; code takes no more than its room, and what
//! is placed no more than its sizes, which are the same under every placement; loose flows keep the weight and the reaches of the program, and the greatest one can
//! be searched for. Proved: [`layouts_keep`], a call with an empty body, for each program whose displacements are words and
//! whose code and data keep to the bounds of `image_definition`.
//!
//! Proved by itself, by calls with empty bodies as well: [`regions_are_filled`], that an image has a segment which isn't empty in
//! each region that a line of regions names; [`segments_are_small`], that its segments keep no more bytes than those of its
//! instructions and of the arrays that aren't local, and take no more of the scratchpad than the items that are placed
//! there; [`items_lie`], that functions and arrays lie where the placement says; [`items_keep_sizes`], that items have the
//! numbers and sizes that the program says, whatever is placed; and [`claims_are_counted`], that there are no more exits and no more lines of
//! regions than instructions.
//!
//! The crate joins what others prove, and knows no runs by itself.
#![tactic(auto)]

mod laws;

pub use laws::{
    claims_are_counted, items_keep_sizes, items_lie, layouts_keep, regions_are_filled,
    segments_are_small,
};
