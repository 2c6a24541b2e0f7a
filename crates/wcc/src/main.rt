//! WCC, a compiler for hard real-time programs that reports a proved bound on their time.
//!
//! `wcc` is the top call: words, a store of files and a sink in, a status out. It compiles sources,
//! checks reports on images, runs images, evaluates sources, sums reports up, makes sources from
//! numbers, and says how long tasks take beside each other. `main` gives it the real files and the
//! standard output, and ends with the status's code.
//!
//! Proved, for every store and every sink: at each status what became of the files and of the
//! printed lines, and why; at Done that a written image does what its source does on every input on
//! which the source is kept, within the printed cycles, which are the greatest that the written
//! report allows unless it shows what stopped the search, that each pass had the number that the
//! words say, that `check` accepts what `compile` wrote, that cycles which are said to hold bound
//! each finished run that keeps the report's claims, on every input, and that what is printed of a
//! run is what the machine does.
#![tactic(auto)]

mod top;

use base_stores::{FsStore, OutSink};
use command_perform::report_status;
use std::alloc::Global;
use std::process::ExitCode;
use std::rt::Env;
use std::{env, io};
pub use top::wcc;
use wcc_base::{Memory, Status};

// The words behind the program's name. A word that isn't UTF-8 makes the command line faulty, as
// the lack of words does.
fn words_of<R: AllocGlobal + Env>(rt: &R, alloc: Global) -> Result<Vec<String>, Memory> {
    match env::args(rt) {
        Ok(words) => match words.skip(1).collect::<Vec<String>>(alloc) {
            Ok(words) => Ok(words),
            Err(_) => Err(Memory),
        },
        Err(error) if error.kind() == io::ErrorKind::OutOfMemory => Err(Memory),
        Err(_) => Ok(Vec::new(alloc)),
    }
}

fn main(rt: HostRuntime) -> ExitCode {
    let alloc = rt.alloc();
    let words = words_of(&rt, alloc);
    let files: Result<_, _> = rt.clone();
    let mut out = OutSink::new(rt);
    let status = match (words, files) {
        (Ok(words), Ok(files)) => wcc(alloc, &words, &mut FsStore::new(files, alloc), &mut out),
        _ => report_status(&mut out, Status::Memory),
    };
    ExitCode::from(status.code())
}
