//! The law of register promotion: what a program keeps whose functions hold global scalars in registers.
//!
//! Where a function begins it loads such a scalar, where it returns it stores those that it writes, and between a register stands for
//! each access (`specs/Promoting`). That may be where all its accesses of the scalar are of the scalar alone and whole, and no function
//! that it calls may touch it (`specs/Suiting`); what registers spare pays for the loads and the stores (`specs/Paying`). Which scalars
//! that are is no matter here.
//!
//! Proved, each by a call with an empty body: [`promoted_carries`], that each good run on bytes is a good run of the other program;
//! [`promoted_is_low`], that it keeps to the low form; [`promoted_costs_no_more`].
//!
//! The crate knows no machine register and no high form.
#![tactic(auto)]

mod laws;

pub use laws::{promoted_carries, promoted_costs_no_more, promoted_is_low};
