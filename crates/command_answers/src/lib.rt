//! What each status of a command promises.
//!
//! `command_perform` does what the words ask, and says how that ends. Proved here, for every compiler, store and sink, and
//! each from that ending: what stands written and printed at Done, that `check` accepts what `compile` wrote, that `make` is
//! done, that what can only end in one way ends so, and the table of answers. The program is this with its own compiler.
#![tactic(auto)]

mod answering;

pub use answering::answer;
