//! Runs, counts and bounds of a source are kept by its plan, and by what each pass makes of that.
//!
//! `compile_high_definitions` says what is carried, and how large such a program is. Proved, by calls with empty bodies:
//! [`plans_are_carried`]; [`passes_carry`], that one more pass keeps all of it; and of its size, [`plans_keep_limits`], by the
//! limits of the language, and [`passes_keep_limits`].
//!
//! The typed program of a source, as the front ends read it, is one whose constants are words (`proofs/Sources`), so by
//! `plan_law` its plan is whole (`IsWhole` of the high form). What a token says is a word (`Tokens`), so the constants
//! of the tree whose spelling the tokens are (`Spelling`) are words too, and those of its typed tree (`Typing`, `Units`), the words of labels among
//! them, which are the values of constant expressions (`Folding`).
//!
//! The crate knows no pass, no machine and not how a plan is made.
#![tactic(auto)]

mod laws;

pub use laws::{passes_carry, passes_keep_limits, plans_are_carried, plans_keep_limits};
