//! Exact fractions of 128-bit parts, and sums of coefficients at addresses.
//!
//! - [`Frac`] is a fraction in lowest terms with a positive denominator, each part an `i128` of at
//!   most 2^126 in absolute value. `add`, `mul` and `cmp` multiply the parts out, and are `None`
//!   exactly where one of these numbers passes 2^126. Nothing wraps, and only `floor` rounds.
//! - [`compare_ratios`] compares two fractions of any `i128` parts, and multiplies nothing out.
//! - [`Sum`] is a sum of `i64` coefficients, each at a 32-bit address. It has one form: addresses
//!   ascend strictly, and no coefficient is 0. `add_term` is refused with `Range` exactly where the
//!   new coefficient leaves `i64`, and with `Memory` where it wants room and there is none.
//!
//! Proved: every result, and every `None` and `Range` in both directions. `Memory` is free: it may
//! come wherever a term is added, so that a term is added while there is memory is only tested.
//! `specs/` has the words, `Frac` and `Arithmetic` those of fractions, `Terms` and `Sum` those of sums.
//!
//! `proofs/` has the laws that the crates above cite: of whole numbers in `SignedLemmas`, of lowest
//! terms in `GcdLemmas`, of floors in `FracLemmas`, of orders in `OrderLemmas`, of lists of terms in
//! `TermsLemmas`, and of sums in `SumLemmas`.
//!
//! The crate knows nothing of programs, images or certificates: an address is a number, and nothing
//! is said of what stands at it.
#![tactic(auto)]

mod frac;
mod order;
mod sum;

pub use frac::Frac;
pub use order::compare_ratios;
pub use sum::{Sum, SumFault};
