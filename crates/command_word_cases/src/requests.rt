// What requests say, as a text.
use command_words::{CompileRequest, Request, RunRequest};
use std::alloc::{AllocError, Global};

/// The number of an option, where it is given.
fn number(alloc: Global, name: &str, number: Option<u64>) -> Result<String, AllocError> {
    match number {
        Some(number) => format!(in alloc; " {name}={number}"),
        None => Ok(String::new(alloc)),
    }
}

/// The file of an option, where it is given.
fn table(alloc: Global, table: Option<&str>) -> Result<String, AllocError> {
    match table {
        Some(name) => format!(in alloc; " table={name}"),
        None => Ok(String::new(alloc)),
    }
}

/// A flag, where it is given.
fn derive(flag: bool) -> &'static str {
    if flag { " derive" } else { "" }
}

fn compile(alloc: Global, r: CompileRequest) -> Result<String, AllocError> {
    let spm = number(alloc, "spm", r.spm)?;
    let unroll = number(alloc, "unroll", r.unroll)?;
    let inline = number(alloc, "inline", r.inline)?;
    let table = table(alloc, r.table)?;
    let files = format!(in alloc; "compile {} {} {}", r.source, r.image, r.report)?;
    let numbers = format!(in alloc;
        "{} {} {}",
        r.scratchpad_bytes(),
        r.unroll_factor(),
        r.inline_size()
    )?;
    format!(in alloc;
        "{files}{spm}{unroll}{inline}{table}{}; {numbers}",
        derive(r.derive)
    )
}

fn run(alloc: Global, r: RunRequest) -> Result<String, AllocError> {
    let limit = number(alloc, "limit", r.limit)?;
    let table = table(alloc, r.table)?;
    format!(in alloc;
        "run {} {} {}{limit}{table}; {}",
        r.image,
        r.input,
        r.output,
        r.cycle_limit()
    )
}

/// What a request says.
pub fn shown(alloc: Global, request: Request) -> Result<String, AllocError> {
    match request {
        Request::Compile(r) => compile(alloc, r),
        Request::Check(r) => {
            let table = table(alloc, r.table)?;
            format!(in alloc; "check {} {}{table}", r.image, r.report)
        }
        Request::Run(r) => run(alloc, r),
        Request::Eval(r) => {
            format!(in alloc;
                "eval {} {} {}{}",
                r.source,
                r.input,
                r.output,
                derive(r.derive)
            )
        }
        Request::Report(r) => format!(in alloc; "report {}", r.report),
        Request::Make(r) => {
            format!(in alloc; "make {} {} {} {}", r.number, r.source, r.image, r.report)
        }
        Request::Respond(r) => {
            let table = table(alloc, r.table)?;
            format!(in alloc; "respond {}{table}", r.tasks)
        }
    }
}
