// What words ask of this program.
ghost use Rattle.std.specs.Prelude.{◌≡◌, IfOk, map, option_map, string_bytes};
ghost use Rattle.command_words.specs.Held.{request_of};
ghost use Rattle.command_perform.specs.Words.{asked, asked_by};
ghost use Rattle.command_perform.specs.Asked.{asked_of};

use command_words::{
    CheckRequest, CompileRequest, EvalRequest, MakeRequest, ReportRequest, Request, RespondRequest,
    RunRequest, read_words,
};
use std::alloc::Global;
use wcc_base::Memory;

/// A command whose files the words name, with what it is asked.
#[derive(Clone, Copy)]
pub enum Command<'a> {
    Compile(CompileRequest<'a>),
    Check(CheckRequest<'a>),
    Run(RunRequest<'a>),
    Eval(EvalRequest<'a>),
    Report(ReportRequest<'a>),
    Make(MakeRequest<'a>),
}

/// What is asked: such a command, or the responses of the tasks of a list, whose lines name files of
/// their own.
#[derive(Clone, Copy)]
pub enum Asked<'a> {
    Named(Command<'a>),
    Respond(RespondRequest<'a>),
}

// What a request asks.
fn asked_for<'a>(request: Request<'a>) -> Asked<'a>
    ensures { asked_of result ≡ asked (request_of request.entry) }
{
    match request {
        Request::Compile(r) => Asked::Named(Command::Compile(r)),
        Request::Check(r) => Asked::Named(Command::Check(r)),
        Request::Run(r) => Asked::Named(Command::Run(r)),
        Request::Eval(r) => Asked::Named(Command::Eval(r)),
        Request::Report(r) => Asked::Named(Command::Report(r)),
        Request::Make(r) => Asked::Named(Command::Make(r)),
        Request::Respond(r) => Asked::Respond(r),
    }
}

/// What the words ask, if they ask for a command.
pub fn read_command<'a>(alloc: Global, words: &'a [String]) -> Result<Option<Asked<'a>>, Memory>
    ensures { IfOk result (λ o. option_map asked_of o ≡ asked_by (map string_bytes words.now)) }
{
    match read_words(alloc, words) {
        Ok(Some(request)) => Ok(Some(asked_for(request))),
        Ok(None) => Ok(None),
        Err(_) => Err(Memory),
    }
}
