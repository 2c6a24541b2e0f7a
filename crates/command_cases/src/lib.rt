//! Tests of the commands on stores and sinks in memory, of which each call fails once.
//!
//! How a call must end is the definition of endings once more, in Rust (`endings`); what it makes is what it makes where
//! nothing fails.
//!
//! This crate has no code but its tests.
#![tactic(auto)]

#[cfg(test)]
mod endings;
#[cfg(test)]
mod given;
#[cfg(test)]
mod tests;
#[cfg(test)]
mod watched;
