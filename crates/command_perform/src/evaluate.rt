// The command `eval SOURCE INPUT OUTPUT [--derive]`.
ghost use Rattle.std.specs.Prelude.{◌≡◌, ◌⊎◌, ℕ, Bool, List, [], ◌∷◌, length, IfOk, MatchResult};
ghost use Rattle.facts_sources.specs.Sources.{IsSourceBy};
ghost use Rattle.types_tree.specs.View.{program_of};
ghost use Rattle.command_perform.specs.Lines.{all_shown, value_line, undefined_line};
ghost use Rattle.wcc_base.specs.declared.status.Status.TheVariants as status;
ghost use Rattle.command_words.specs.Held.{eval_request};
ghost use Rattle.command_perform.specs.Ends.{IsEnd, IsRefusal};
ghost use Rattle.command_perform.specs.Evaluating.{broken_outputs, run_outputs, IsRun, MakesRun};
ghost use Rattle.command_perform.specs.Sources.{RefusesProgram};
ghost use Rattle.command_perform.specs.Outputs.{outputs_of};

use crate::lines::{Part, broken_line, undefined_line, value_line};
use crate::make::{Made, Output};
use crate::printing::text_of;
use crate::sources::refusal_status;
use c_meaning::eval;
use command_words::EvalRequest;
use facts_front::{Source, read_source};
use meaning_semantics::{SourceRun, Unkept};
use std::alloc::Global;
use wcc_base::{Items, Memory, Status};

// A run that stopped: nothing is written but its line.
fn stopped<'a>(alloc: Global, status: Status, line: &[Part]) -> Result<Made<'a>, Memory>
    ensures { IfOk result (λ m. outputs_of m ≡ record { status = status; files = []; lines = all_shown line.now }) }
{
    let lines = text_of(alloc, line)?;
    Ok(Made {
        status,
        files: Vec::new(alloc),
        lines: Items::new(lines),
    })
}

fn broken<'a>(alloc: Global, what: Unkept) -> Result<Made<'a>, Memory>
    ensures { IfOk result (λ m. outputs_of m ≡ broken_outputs what) }
{
    let (kind, at) = match what {
        Unkept::Loop { at } => (5, at),
        Unkept::Restriction { at } => (6, at),
    };
    let status = Status::Stopped {
        kind,
        code: 0,
        at,
        cycles: 0,
    };
    stopped(alloc, status, &broken_line(at))
}

fn undefined<'a>(alloc: Global, rule: u8, at: u32) -> Result<Made<'a>, Memory>
    ensures { IfOk result (λ m. outputs_of m ≡ record { status = status.Stopped 4 rule at 0; files = []; lines = undefined_line rule at }) }
{
    let status = Status::Stopped {
        kind: 4,
        code: rule,
        at,
        cycles: 0,
    };
    stopped(alloc, status, &undefined_line(rule, at))
}

// A run that is done: its output, and the line of its value.
fn done<'a>(
    alloc: Global,
    asked: EvalRequest<'a>,
    output: Items<u8>,
    value: i32,
) -> Result<Made<'a>, Memory>
    ensures { IfOk result (λ m. outputs_of m ≡ record { status = status.Done; files = ((eval_request asked.entry).output, output) ∷ []; lines = value_line value (length output) }) }
{
    let line = value_line(value, output.as_slice().len() as u64);
    let lines = text_of(alloc, &line)?;
    let mut files = Vec::new(alloc);
    files.push(Output {
        name: asked.output,
        bytes: output,
    })?;
    Ok(Made {
        status: Status::Done,
        files,
        lines: Items::new(lines),
    })
}

// What a run comes to.
fn outputs<'a>(alloc: Global, asked: EvalRequest<'a>, run: SourceRun) -> Result<Made<'a>, Memory>
    ensures { IfOk result (λ m. outputs_of m ≡ run_outputs (eval_request asked.entry) run) }
{
    match run {
        SourceRun::Done { output, value, .. } => done(alloc, asked, output, value),
        SourceRun::Undefined { rule, at } => undefined(alloc, rule, at),
        SourceRun::Broken { what } => broken(alloc, what),
    }
}

// Does on the input what a source says that was read, and lets go of it.
fn run(alloc: Global, source: Source, input: &[u8]) -> Result<SourceRun, Memory>
    ensures { IfOk result (λ r. (derive : Bool) (text : List ℕ) → IsSourceBy derive text source.typed.program.names.items (program_of source.typed.program) source.facts → IsRun derive text input.now r) }
{
    let run = eval(alloc, &source.typed.program, &source.facts, input);
    source.let_go();
    run
}

// Reads a source, and does on the input what it says.
fn run_source(alloc: Global, source: &[u8], input: &[u8], derive: bool) -> Result<SourceRun, Status>
    ensures { MatchResult result (IsRun derive source.now input.now)
        (λ s. (s ≡ status.Memory) ⊎ (IsRefusal s × RefusesProgram derive source.now s)) }
{
    match read_source(alloc, source, derive) {
        Ok(source) => match run(alloc, source, input) {
            Ok(run) => Ok(run),
            Err(_) => Err(Status::Memory),
        },
        Err(refusal) => Err(refusal_status(refusal)),
    }
}

/// Does on the input what the source says.
#[tactic(auto, using(crate::proofs::Evaluations::makes_run))]
pub fn make_evaluated<'a>(
    alloc: Global,
    asked: EvalRequest<'a>,
    contents: (Items<u8>, Items<u8>),
) -> Result<Made<'a>, Status>
    ensures { MatchResult result (λ m. IsEnd m.status × MakesRun (eval_request asked.entry) contents.0 contents.1 (outputs_of m))
        (λ s. (s ≡ status.Memory) ⊎ (IsRefusal s × RefusesProgram (eval_request asked.entry).derive contents.0 s)) }
{
    let (source, input) = contents;
    match run_source(alloc, source.as_slice(), input.as_slice(), asked.derive) {
        Ok(run) => match outputs(alloc, asked, run) {
            Ok(made) => Ok(made),
            Err(_) => Err(Status::Memory),
        },
        Err(status) => Err(status),
    }
}
