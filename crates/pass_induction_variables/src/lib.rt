//! Induction variables: those of a loop, what other registers hold by them, and which accesses pointers might serve.
//!
//! In a loop a register stays, steps by words, or is another one (`parts`); of the others linear forms over those are found (`flow`),
//! of those that live from block to block (`lives`). Accesses whose addresses have the same terms share a candidate (`finding`). A
//! pointer needn't be stepped where its index is (`lags`).
//!
//! Nothing is proved of it but that it is safe and ends: any proposal is right that is checked. Each analysis goes through a loop or a
//! function in sweeps whose number is bounded, and gives up where they don't suffice.
//!
//! The crate knows not what pays.
#![tactic(auto)]

pub mod finding;
pub mod flow;
pub mod lags;
pub mod lives;
pub mod parts;
