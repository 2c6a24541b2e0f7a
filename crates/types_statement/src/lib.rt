//! The checker of statements.
//!
//! As in `types_expression`, each call answers what `types_rules` defines, also where a rule fails.
//!
//! Proved: of the items of a function's body, the typed forms and what is visible behind them are those of
//! `types_rules`, and the fault is that of the first node in source order at which a rule fails, with the least
//! rule that fails there. The only error is want of memory.
#![tactic(auto)]

mod build;
mod checked;
mod heads;
mod labels;
mod parts;
mod walk;

pub use checked::{CheckedItems, Within};
pub use parts::copy_pragma;
pub use walk::check_body;
