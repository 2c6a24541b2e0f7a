//! What is claimed of laid code, in the order of addresses: exits, regions and loops; where marks stand, the ranges
//! of functions, and what may be moved into the scratchpad.
//!
//! `specs/` has what each item touches, nothing, a frame or some arrays (`Touches`), and the lines of regions of accesses in
//! the order of their addresses (`Lines`): a line goes on for as long as accesses have the same regions. It has the functions in the
//! order of their addresses (`Orders`), the claims (`Listed`), the shapes that loop claims have: from the header to the jump back
//! (`Shapes`), and what loose flows keep (`Flows`, which `claims_bounds` proves). What may be moved is the code of a function, or an
//! array that isn't local ([`item`]): `Movables` has their numbers, sizes, regions, and the addresses at which they are
//! fetched or accessed, and the list of all that a program has. A function's size is that of its items in their longest forms, where
//! every array is far: it is at least what the function takes.
//!
//! Proved, as contracts of functions without a body: [`items_are_touched`], [`lines_hold`] and [`placed_is_named`]; of a program whose
//! functions lie in two rows [`claims_are_sound`], [`claims_are_few`], [`accesses_are_listed`], [`accesses_have_lines`],
//! [`loops_are_claimed`], [`marks_have_places`], [`places_are_apart`], [`ranges_hold`], [`exits_are_calls`] and [`claims_fit`]; and
//! [`functions_are_movable`] and [`arrays_are_movable`].
//!
//! This crate knows no runs and no search, not how an image is made, and no gains and no choice.
#![tactic(auto)]

mod item;
mod laws;

pub use item::LaidItem;
pub use laws::{
    accesses_are_listed, accesses_have_lines, arrays_are_movable, claims_are_few, claims_are_sound,
    claims_fit, exits_are_calls, functions_are_movable, items_are_touched, lines_hold,
    loops_are_claimed, marks_have_places, placed_is_named, places_are_apart, ranges_hold,
};
