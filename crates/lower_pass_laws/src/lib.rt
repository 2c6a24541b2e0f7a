//! The laws on passes over the low form, for low programs that come from programs in the high form.
//!
//! Proved, each by a call with an empty body: what a low program keeps of a program in the high form, it keeps
//!
//! - with copies in place of loads and operations whose value a register holds ([`reloads_keep`]);
//! - with pointers that step ([`steps_keep`]);
//! - with global scalars in registers, of which a function may have as many as it has spare registers ([`promoted_keeps`]);
//! - without its copies ([`copies_keep`]);
//! - where its jumps go past blocks that do nothing ([`threads_keep`]):
//!
//! runs, functions, loops, marks, arrays and accesses, and the budgets of the low form.
//!
//! The crate knows no pass.
#![tactic(auto)]

mod laws;

pub use laws::{copies_keep, promoted_keeps, reloads_keep, steps_keep, threads_keep};
