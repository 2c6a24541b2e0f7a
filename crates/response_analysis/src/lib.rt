//! Response times of tasks that share one processor under preemptive fixed priorities (Joseph and
//! Pandya, Finding Response Times in a Real-Time System, 1986).
//!
//! A task is what its jobs need at most and how far apart they are released at least; its deadline
//! is its period. Tasks stand in falling priority. The response of a task is the least number of
//! cycles that holds what it and the tasks before it ask for within them.
//!
//! `specs/` has tasks (`Tasks`), the equation (`Equation`), schedules, cycle by cycle (`Schedule`),
//! and the theorem that joins them (`Ends`). Proved: `responses` answers the least solutions of the
//! equation, or exactly the first task that has none of at most its period; `fixed` is true exactly
//! for solutions of at most the periods, and then in every schedule each job of each task is
//! finished at most its response after its release; where all tasks are released together
//! (`Together`), the first job of each is finished exactly at the least response.
//!
//! A least solution is found by rising to it, in each step to the least number that holds what the
//! tasks ask for within the last one, the first of them by their shares of the processor. The number
//! of steps is small but where shares leave next to nothing of the processor; it isn't bounded by the
//! length of the input, since the problem is NP-hard (Eisenbrand and Rothvoß, Static-Priority
//! Real-Time Scheduling: Response Time Computation is NP-Hard, 2008).
//!
//! The crate knows nothing of images and reports: a number of cycles is a number.
#![tactic(auto)]

mod checking;
mod equation;
mod fault;
mod lowest;
mod responding;
mod task;

pub use checking::fixed;
pub use fault::TaskFault;
pub use responding::responses;
pub use task::{Task, are_tasks};
