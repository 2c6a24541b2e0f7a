//! Lays a program: its image, the claims on it, and the lists that a search for the greatest flow and a choice of what to
//! place want.
//!
//! `words` shows that displacements are words, `laying` makes the parts, one after the other: the image with its memory and
//! layout (`image_making`), what its items touch (`claims_touches`), and by these the claims and the lists. Nothing is laid out
//! twice. The time is linear in the items, but for the calls and functions for each register.
//!
//! Proved: [`lay`] gives what `image_definition` and `claims_definition` define of the program over its
//! places (`layout_program`), wherever code and data keep to the bounds of `image_definition`, or memory ran out; and the image
//! and its claims then keep of the program what `layout_law` says in one record. An item's size is the same under every
//! placement, so that one layout says what another one takes.
#![tactic(auto)]

mod laying;
mod words;

pub use laying::lay;
pub use layout_program::{Claimed, Laid, Lists};
