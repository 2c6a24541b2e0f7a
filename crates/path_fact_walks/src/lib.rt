//! The walks of a system that pay for facts (Schrijver 1986, Lagrange multipliers; Li and Malik 1995, implicit path
//! enumeration).
//!
//! With multipliers a fact is no restriction but a part of the prices: each move costs its cycles over a scale, less what
//! the multiplied facts have at its address. [`settle_facts`] makes the walks at these prices, [`fact_cert`] the certificate
//! of their potentials and multipliers, and [`fact_flow`] the moves of their flow. Proved: all three are exactly those that
//! `path_cert` defines; its laws say that such a certificate is accepted, and such a flow a best one.
//!
//! The crate knows nothing of where multipliers come from.
#![tactic(auto)]

mod bounding;
mod listing;
mod pricing;
mod walking;

pub use bounding::fact_cert;
pub use listing::fact_flow;
pub use pricing::{Multiplied, block, prices};
pub use walking::settle_facts;
