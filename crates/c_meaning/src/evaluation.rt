// The run of a source on an input.
ghost use Rattle.std.specs.Prelude.{◌≡◌, ◌++◌, IfOk, map};
ghost use Rattle.types_tree.specs.View.{external_of, program_of};
ghost use Rattle.meaning_semantics.specs.Runs.{finished, first_violated, initialised_all, meaning, ran, stopped};
ghost use Rattle.meaning_semantics.specs.State.{outcome_of};
ghost use Rattle.c_meaning.specs.Scopes.{calls_of, source_of};

use super::entry::main_of;
use super::restrictions::first_violated;
use super::walk::{Answer, Scope, call, declare};
use c_tree::expression::NameId;
use facts_definitions::Facts;
use meaning_semantics::{Flow, SourceRun, State, Stop, Unkept};
use std::alloc::Global;
use types_tree::external::External;
use types_tree::program::Program;
use wcc_base::{Memory, sign_extend};

/// The initial values of file level.
fn initialize_all(scope: &Scope, items: &[External], state: &mut State) -> Answer<Flow>
    ensures { IfOk result (λ r. initialised_all (source_of scope.now) (calls_of scope.now) (map external_of items.now) state.old ≡ outcome_of r state.new) }
{
    for item in items {
        match item {
            External::Restriction(_) => {}
            External::Declaration(declaration) => match declare(scope, declaration, state)? {
                Err(stop) => return Ok(Err(stop)),
                Ok(_) => {}
            },
            External::Function(_) => {}
        }
    }
    Ok(Ok(Flow::Onward))
}

/// Initialises the objects of file level, and then calls main.
fn run_main(scope: &Scope, main: usize, rank: u32, state: &mut State) -> Answer<Option<u32>>
    ensures { IfOk result (λ r. ran (source_of scope.now) main rank state.old ≡ outcome_of r state.new) }
{
    let first = Scope {
        alloc: scope.alloc,
        program: scope.program,
        bounds: scope.bounds,
        depth: 0,
    };
    match initialize_all(&first, &scope.program.items, state)? {
        Err(stop) => Ok(Err(stop)),
        Ok(_) => {
            let main_scope = Scope {
                alloc: scope.alloc,
                program: scope.program,
                bounds: scope.bounds,
                depth: u64::from(rank) + 1,
            };
            call(&main_scope, main, &[], 0, state)
        }
    }
}

/// How a run ends that stopped.
fn stopped(stop: Stop) -> SourceRun
    ensures { result ≡ stopped stop }
{
    match stop {
        Stop::Undefined { rule, at } => SourceRun::Undefined { rule, at },
        Stop::Broken { at } => SourceRun::Broken {
            what: Unkept::Loop { at },
        },
    }
}

/// The names of the functions and markers, in the order of their counts.
fn names_of(alloc: Global, facts: &Facts) -> Result<Vec<NameId>, Memory>
    ensures { IfOk result (λ v. v.items ≡ facts.now.functions ++ facts.now.markers) }
{
    let mut names = Vec::new(alloc);
    names.extend_from_slice(facts.functions.as_slice())?;
    names.extend_from_slice(facts.markers.as_slice())?;
    Ok(names)
}

/// How a run ends whose main has ended.
fn finish(
    alloc: Global,
    facts: &Facts,
    given: Option<u32>,
    state: State,
) -> Result<SourceRun, Memory>
    ensures { IfOk result (λ r. r ≡ finished (first_violated (facts.now.functions ++ facts.now.markers) state.counts facts.now.restrictions) given state) }
{
    let names = names_of(alloc, facts)?;
    let violated = first_violated(&names, state.counts(), facts.restrictions.as_slice())?;
    if let Some(at) = violated {
        drop(state);
        return Ok(SourceRun::Broken {
            what: Unkept::Restriction { at },
        });
    }
    let (output, counts) = state.into_parts();
    Ok(SourceRun::Done {
        output,
        value: sign_extend(given.unwrap_or(0), 32),
        counts,
    })
}

/// The run of a program on an input, under its facts.
pub fn eval(
    alloc: Global,
    program: &Program,
    facts: &Facts,
    input: &[u8],
) -> Result<SourceRun, Memory>
    ensures { IfOk result (λ r. r ≡ meaning (program_of program.now) program.now.names.items facts.now input.now) }
{
    let main = main_of(program);
    let ranks = facts.ranks.of_functions.as_slice();
    let rank = ranks.get(main).copied().unwrap_or(0);
    let mut state = State::new(alloc, program, facts.markers.as_slice().len(), input)?;
    let scope = Scope {
        alloc,
        program,
        bounds: facts.bounds.as_slice(),
        depth: 0,
    };
    match run_main(&scope, main, rank, &mut state)? {
        Err(stop) => {
            drop(state);
            Ok(stopped(stop))
        }
        Ok(given) => finish(alloc, facts, given, state),
    }
}
