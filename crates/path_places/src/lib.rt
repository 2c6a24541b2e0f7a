//! The functions of a system as steps and loops over places, and the worths of places as dual values of its flows (Li and Malik
//! 1995; Schrijver 1986, weak duality).
//!
//! A place is the number of moves that begin before an address, so that a walk reads its worths by number. The steps of a
//! function are its moves, without those of addresses that may not be visited and without the loops' jumps back. Each function is
//! settled at the worths of those before it, a called one before its callers, so that a call costs its own price and the worth of
//! the place where the called function begins. The potential of an address is the worth of its place. The multipliers of a loop
//! claim are those of its loop, and where a claim forbids to visit an address, as a never claim does or a loop without turns, its
//! multiplier pays what is left of the prices there.
//!
//! Proved, each by a call with an empty body:
//!
//! - every address of an image's system is reached by its moves ([`systems_are_reached`]);
//! - where loops fit and every address is reached, each function's steps ascend, and its loops are loops over them, the outermost
//!   first ([`functions_fit`]): in its function a loop's header is the first reached address of its range, and steps from outside go
//!   to it alone;
//! - there each move but those of places that may not be visited and jumps back costs no more than the worth falls along it, the
//!   weight of its header counted, at any prices and whatever the worth of a block is ([`moves_are_paid`]); and each loop's
//!   multipliers pay its jump back ([`loops_are_settled`]);
//! - so each multiplier has its limit's sign, and each move of the system is covered: no flow has a greater total than the entry's
//!   potential ([`walks_are_dual`]).
//!
//! The crate has definitions and these laws. It knows nothing of certificates, and of no flow.
#![tactic(auto)]

mod laws;

pub use laws::{
    functions_fit, loops_are_settled, moves_are_paid, systems_are_reached, walks_are_dual,
};
