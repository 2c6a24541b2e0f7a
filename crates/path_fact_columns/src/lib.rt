//! Answers of a system with facts at multipliers, as columns, and what the end of a round says of them (Dantzig and Wolfe 1960,
//! column generation; Schrijver 1986, linear programming duality).
//!
//! [`answer_at`] makes the walks that pay for facts: the certificate, the entry's worth, and the moves of a best flow where the
//! worth isn't negative. [`column`] gives that flow's value and what it makes of each fact. Proved: each is exactly that of
//! the definitions, the flow is a best one at the multipliers, and the certificate is accepted where they have their signs.
//!
//! No flow of a column is kept: [`mixed`] makes the walks at the multipliers of each column that has weight once more, and adds
//! their flow, so often each, into one. Proved: the result lists just the mix of the definitions.
//!
//! Proved too, each by a call with an empty body: where the answer at a round's multipliers doesn't improve on the round, its
//! certificate with the weighted flow is in form and accepted as greatest ([`solved_are_greatest`]); and the answer at the
//! multipliers of the first phase is also best for the totals alone ([`first_answers_are_best`]).
//!
//! The crate knows nothing of how multipliers and weights are found, and of how rounds follow each other.
#![tactic(auto)]

mod adding;
mod answering;
mod columns;
mod counting;
mod laws;
mod mixing;

pub use adding::parts_of;
pub use answering::{Answer, answer_at};
pub use columns::column;
pub use laws::{first_answers_are_best, solved_are_greatest};
pub use mixing::{Found, mixed};
