//! The shares of a report of version 2: how much of the bound the code of each function has.
//!
//! A bound is the greatest value of a flow, and the flow is listed: how often each move is made.
//! `specs/Shares.antt` says when shares fit such a flow: each listed address lies in one range, each
//! call goes to the beginning of a function's range, and each part is what the moves in its range
//! cost. `specs/Faults.antt` says which fault is the first where they don't.
//!
//! Proved: `share_fault` answers none exactly where the shares fit, and else that first fault;
//! `fill_shares` makes each part its sum; and the parts of shares that fit add up to the value of the
//! flow (`shares_add_up`).
//!
//! Both calls take no memory and stay near linear: moves, listed parts and shares ascend by address, and
//! are searched by halving. Sums are tested, so that nothing wraps. The crate knows nothing of files,
//! of the text of a report, or of how a flow is found.
#![tactic(auto)]

mod faults;
mod filling;
mod laws;
mod places;
mod sums;

pub use faults::share_fault;
pub use filling::fill_shares;
pub use laws::shares_add_up;
