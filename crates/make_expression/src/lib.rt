//! What expressions of a typed tree become in the high form: code, and then a value that it leaves.
//!
//! Proved: `value`, `code` and `choose` make the code and the value that `plan_definition` defines, or memory ran out. Each
//! expression is visited once; code is moved and never copied.
//!
//! This crate knows no statement of the source.
#![tactic(auto)]

mod assigning;
mod calling;
mod choosing;
mod joint;
mod operating;
mod passing;
mod purposes;
mod scope;
mod stepping;
mod walk;

pub use choosing::{chosen, chosen_by_jumps};
pub use joint::is_joint;
pub use scope::Scope;
pub use walk::{choose, code, value};
