//! The flow system of an image and claims: which moves its runs can make.
//!
//! `system` walks from the image's entry over the moves of its instructions and collects the moves
//! of all that is reached. It is refused with the first claim that is bad, or with the least reached
//! address that is no code. What a system is, what claims, flows and certificates are, and what they
//! say of runs, stands in `code_flow_system`, whose types are named here again.
//!
//! Proved: an answered system is the one of the image and claims, a refusal is exactly the first
//! fault, and neither can come in place of the other. `Memory` is free, so that a system is answered
//! while there is memory is only tested.
//!
//! The walk marks the words where code can stand, so it takes one byte for each of the two million
//! words of flash and scratchpad, beside what it finds; its steps are linear in the reached
//! instructions but for the sorting of exits and of addresses where no code can stand.
//!
//! Proved too, by a call with an empty body: where the code of an image ends behind so many words of
//! flash and of the scratchpad, a certificate that is accepted for the image's system has no more
//! potentials than these words, and its flow lists no more than two moves of each
//! ([`certificates_are_few`], `specs/Sizes`): instructions stand in code alone, and an address has two
//! moves at most.
//!
//! The crate knows nothing of files, nor of how certificates and claims were found.
#![tactic(auto)]

mod collect;
mod faults;
mod finding;
mod flaws;
mod laws;
mod places;
mod sorted;
mod walk;
mod ways;

pub use code_flow_system::{
    Arrival, Cert, Claims, FactClaim, Flow, LoopClaim, LoopShape, Mark, Mention, Move, Never, Part,
    Span, System, Within,
};
pub use finding::{CodeFault, system};
pub use laws::certificates_are_few;
