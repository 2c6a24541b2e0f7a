//! What a system, a certificate and its flow say of an address or a move.
//!
//! The lists of a system and of a certificate are ascending, and each call here searches them by halving. So the
//! checker takes no memory and stays near linear. Proved: each answer is what the definitions of `code_flow_system` say of
//! the whole list, and `move_cost` is the cost of a move: its instruction, an access at the dearest of the regions that
//! the claims allow it, and for a load the wait of the instruction right behind it.
//!
//! The crate knows nothing of rows, of verdicts, of files or of how a certificate is found.
#![tactic(auto)]

mod cert;
mod costs;
mod moves;
mod runs;

pub use cert::{amount, is_given, potential};
pub use costs::move_cost;
pub use moves::{has_move, has_moves, instruction_at};
pub use runs::{arrivals_at, mentions_at, moves_at, parts_at, potentials_at};
