//! The greatest flow of a system without restrictions, with its certificate (Li and Malik 1995, implicit path
//! enumeration).
//!
//! [`bound`] makes the walks of the nest of loops at the costs of moves, their potentials and multipliers as a certificate,
//! and a flow of exactly its value. No linear program is solved: the nest gives the optimum, and each step is walked
//! once for each loop around it. Proved: the certificate is in form and accepted, and it says that its bound is the
//! greatest value of a flow, which it lists, or that there is none.
//!
//! [`can_bound`] tests what such a search rests on. A law, [`shared_headers_never_turn`], says what it costs that no jump
//! back may be the header of another loop: no loop that can turn. Another, [`is_boundable`], gives what `path_cert` asks.
//!
//! The crate knows nothing of images, of files, and of how claims were found.
#![tactic(auto)]

mod bounding;
mod conditions;
mod marking;
mod unmarked;

pub use bounding::{bound, is_boundable};
pub use conditions::{can_bound, shared_headers_never_turn};
