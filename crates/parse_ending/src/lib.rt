//! What a token does behind an operand: it goes on, or it ends the part that the operand stands in.
#![tactic(auto)]

pub mod behind;
mod leave;
mod take;
