//! The potentials and multipliers that the walks of a system give, as a certificate has them (Schrijver 1986, dual
//! values).
//!
//! [`settle_costs`] makes the walks at the costs of moves. The potential of an address is the worth of its place. Where a claim forbids to visit an address, its multiplier pays
//! what is left of the prices there beside the loops' multipliers. Proved: they are those of the definitions of
//! `path_places`, and a sum that is too wide for a checker is found.
//!
//! The crate knows nothing of how worths are found, nor of flows.
#![tactic(auto)]

mod candidate;
mod laws;
mod multipliers;
mod owed;
mod price;
mod terms;
mod walks;

pub use candidate::plain;
pub use laws::multipliers_are;
pub use multipliers::{loop_multipliers, never_multipliers};
pub use owed::most_owed;
pub use price::prices;
pub use terms::potentials;
pub use walks::settle_costs;
