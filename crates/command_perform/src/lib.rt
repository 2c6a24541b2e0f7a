//! The commands: what each does with files, and what it says.
//!
//! `perform` reads the words, reads the files that they name, makes of their contents what the command
//! asks, writes what is made, and prints how it ended. It is the whole of the program but for the
//! promise that `wcc` draws from it. One command, `respond`, finds the names of further files in what
//! it reads, and reads and lets go those of one task after the other.
//!
//! Proved, for every store and every sink: what became of the files, of the counts of faults and of the
//! printed lines at each status, and why (`specs/Ends`). So no fault is told as want of memory. What a
//! command refuses and what it makes are two relations over contents (`specs/Commands`); that some leave
//! one status only are laws.
#![tactic(auto)]

mod check;
mod compile;
mod contents;
mod evaluate;
mod files;
mod finish;
mod gather;
mod laws;
mod lines;
mod make;
mod numbered;
mod performing;
mod printing;
mod report;
mod respond;
mod run;
mod sources;
mod status_lines;
mod tables;
mod words;

pub use laws::{
    accepted_is_done, compilation_is_done, evaluation_is_done, exit_is_done, numbered_is_done,
    responses_are_done, summary_is_done,
};
pub use performing::perform;
pub use status_lines::report_status;
