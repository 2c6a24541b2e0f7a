//! Response times: the tasks of a list, and how long each takes at most beside the others.
//!
//! [`read_tasks`] gives the tasks of a list, or the first line that fails; [`responses`] gives the least response of each task
//! under preemptive fixed priorities on one processor, or the first task that has none within its period; and [`fixed`] says
//! whether responses are right. What these two promise stands at its own place, `response_analysis`.
//!
//! A list has 1 to 64 lines `task NAME PERIOD IMAGE REPORT`, in falling priority, each ended by the byte 0A, with one blank
//! between the words. A name is one of the source language, and none stands twice; a period is a number of 1 to 10^12 without a
//! leading zero; the names of files have visible bytes. `specs/` has the tasks and their lines (`Entries`), when a line says one
//! (`Forms`), and when a text is a list (`Lists`). Proved: [`read_tasks`] answers the tasks whose lines are the text, or exactly
//! the first line that fails, by its form before its number.
//!
//! The crate opens no file.
#![tactic(auto)]

mod entry;
mod fault;
mod forms;
mod known;
mod reading;

pub use entry::Entry;
pub use fault::ListFault;
pub use reading::read_tasks;
pub use response_analysis::{Task, TaskFault, are_tasks, fixed, responses};
