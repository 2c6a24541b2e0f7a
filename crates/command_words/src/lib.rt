//! The words behind the program's name, and what they ask.
//!
//! Each of the seven commands has a definition for the `clap` crate: files by their places, numbers
//! and files by the names of options, and one flag. `specs/Commands.antt` has these definitions,
//! `specs/Requests.antt` what a command can be asked, and `specs/Asked.antt` what words ask.
//!
//! Proved: `read_words` answers exactly what the words ask, and nothing exactly where there is no
//! first word, it names no command, the command's definition refuses the words (a word for help
//! included), or two of the named files have one name; want of memory alone is left open. Options
//! are as they were given; the numbers that hold without them are methods of the requests, and each
//! number is in its range.
//!
//! The crate reads no file, and doesn't know what a command does, nor which ones a program has.
#![tactic(auto)]

mod argument;
mod arguments;
mod check;
mod compile;
mod defaults;
mod eval;
mod make;
mod matching;
mod names;
mod reading;
mod report;
mod request;
mod respond;
mod run;
mod values;
mod verb;

pub use reading::read_words;
pub use request::{
    CheckRequest, CompileRequest, EvalRequest, MakeRequest, ReportRequest, Request, RespondRequest,
    RunRequest,
};
