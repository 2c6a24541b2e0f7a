//! The checker of expressions: the typed form, the type and the first fault in one walk.
//!
//! Each call answers what `types_rules` defines, also where a rule fails: so a node's own rule, which needs the
//! types of its parts, is tested once they are walked, and still comes before theirs.
//!
//! Proved: the typed form and the type are those of `types_rules`, and the fault is that of the first node of the
//! expression in source order at which a rule fails, with the least rule that fails there. The only error is
//! want of memory.
#![tactic(auto)]

mod bindings;
mod breaks;
mod checked;
mod finish;
mod parts;
mod places;
mod walk;

pub use breaks::first_of;
pub use checked::{Checked, Value};
pub use parts::convert;
pub use walk::check;
