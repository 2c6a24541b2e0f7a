// What statements do.
ghost use Rattle.std.specs.Prelude.{◌≡◌, Some, IfOk, OnSome};
ghost use Rattle.high_ir.specs.Meaning.{Outcome, State as Stands, if_met, out_of_block, pass, then_do, turns};
ghost use Rattle.high_ir.specs.Runs.{given};
ghost use Rattle.high_ir.specs.View.{statement_of, statements_of};
ghost use Rattle.high_eval.specs.Ends.{calls_of, given_of, outcome_of, run_all_with, run_with};

use super::frame::{frame, takes};
use super::state::{End, State};
use super::value::{numbers, value, values};
use high_ir::Function;
use high_ir::statement::Statement;
use std::alloc::Global;
use wcc_base::Memory;

/// Where a statement runs: the functions of the program, how deep calls may nest yet, and the arrays
/// that the caller passed.
#[derive(Drop)]
pub struct Scope<'a> {
    pub alloc: Global,
    pub functions: &'a [Function],
    pub depth: u64,
    pub passed: &'a [u32],
}

fn out_of(end: End) -> End
    ensures { (st : Stands) → out_of_block (outcome_of end st) ≡ outcome_of result st }
{
    match end {
        End::Goes => End::Goes,
        End::Leaves(0) => End::Goes,
        End::Leaves(depth) => End::Leaves(depth - 1),
        End::Returns(word) => End::Returns(word),
        End::Bad => End::Bad,
    }
}

#[cycle(run)]
pub fn run_statement(scope: &Scope, statement: &Statement, state: &mut State) -> Result<End, Memory>
    ensures { IfOk result (λ e. run_with scope.now.functions.now scope.now.depth scope.now.passed.now (statement_of statement.now) state.old ≡ outcome_of e state.new) }
{
    match statement {
        Statement::Set {
            variable,
            value: of,
        } => match value(state, scope.passed, of) {
            None => Ok(End::Bad),
            Some(word) => Ok(state.set(*variable, word)),
        },
        Statement::Put { value: of } => match value(state, scope.passed, of) {
            None => Ok(End::Bad),
            Some(word) => state.put(word),
        },
        Statement::Get { into } => Ok(state.get(*into)),
        Statement::Keep {
            array,
            index,
            value: of,
        } => {
            let Some(index) = value(state, scope.passed, index) else {
                return Ok(End::Bad);
            };
            match value(state, scope.passed, of) {
                None => Ok(End::Bad),
                Some(word) => Ok(state.keep(scope.passed, *array, index, word)),
            }
        }
        Statement::Mark { id } => state.pass(*id),
        Statement::Seq(parts) => run_statements(scope, parts, state),
        Statement::If { test, first, other } => match value(state, scope.passed, test) {
            None => Ok(End::Bad),
            Some(0) => run_statement(scope, other, state),
            Some(_) => run_statement(scope, first, state),
        },
        Statement::Loop { min, max, body, .. } => repeat(scope, *min, *max, body, state),
        Statement::Block(body) => Ok(out_of(run_statement(scope, body, state)?)),
        Statement::Leave { depth } => Ok(End::Leaves(*depth)),
        Statement::Call {
            function,
            values: of,
            arrays,
            into,
        } => {
            let Some(words) = values(scope.alloc, state, scope.passed, of)? else {
                return Ok(End::Bad);
            };
            let Some(arrays) = numbers(scope.alloc, scope.passed, arrays)? else {
                return Ok(End::Bad);
            };
            match call(scope, *function, &words, &arrays, state)? {
                None => Ok(End::Bad),
                Some(word) => Ok(state.take(*into, word)),
            }
        }
        Statement::Return { value: of } => match value(state, scope.passed, of) {
            None => Ok(End::Bad),
            Some(word) => Ok(End::Returns(word)),
        },
    }
}

#[cycle(run)]
fn run_statements(scope: &Scope, parts: &[Statement], state: &mut State) -> Result<End, Memory>
    ensures { IfOk result (λ e. run_all_with scope.now.functions.now scope.now.depth scope.now.passed.now (statements_of parts.now) state.old ≡ outcome_of e state.new) }
{
    for part in parts {
        match run_statement(scope, part, state)? {
            End::Goes => {}
            End::Leaves(depth) => return Ok(End::Leaves(depth)),
            End::Returns(word) => return Ok(End::Returns(word)),
            End::Bad => return Ok(End::Bad),
        }
    }
    Ok(End::Goes)
}

/// How a loop ends that is left while so many starts are owed.
fn left_with(owed: u32, end: End) -> End
    ensures { (o : Outcome) (st : Stands) → o ≡ outcome_of end st → if_met owed o ≡ outcome_of result st }
{
    if owed == 0 { end } else { End::Bad }
}

#[cycle(run)]
fn repeat(
    scope: &Scope,
    min: u32,
    max: u32,
    body: &Statement,
    state: &mut State,
) -> Result<End, Memory>
    ensures { IfOk result (λ e. turns max min (run_with scope.now.functions.now scope.now.depth scope.now.passed.now (statement_of body.now)) state.old ≡ outcome_of e state.new) }
{
    let mut owed = min;
    for _ in 0..max {
        owed = owed.saturating_sub(1);
        match run_statement(scope, body, state)? {
            End::Goes => {}
            End::Leaves(depth) => return Ok(left_with(owed, End::Leaves(depth))),
            End::Returns(word) => return Ok(left_with(owed, End::Returns(word))),
            End::Bad => return Ok(End::Bad),
        }
    }
    Ok(End::Bad)
}

/// Passes the opening mark of a function and runs its body.
#[cycle(run)]
fn run_body(
    scope: &Scope,
    number: u32,
    function: &Function,
    state: &mut State,
) -> Result<Option<u32>, Memory>
    ensures { IfOk result (λ r. given (then_do (pass (Some number) state.old) (run_with scope.now.functions.now scope.now.depth scope.now.passed.now (statement_of function.now.body))) ≡ given_of r state.new) }
{
    state.pass(number)?;
    match run_statement(scope, &function.body, state)? {
        End::Returns(word) => Ok(Some(word)),
        End::Goes => Ok(None),
        End::Leaves(_) => Ok(None),
        End::Bad => Ok(None),
    }
}

/// Calls a function with these values and arrays.
#[cycle(run)]
pub fn call(
    scope: &Scope,
    number: u32,
    values: &[u32],
    arrays: &[u32],
    state: &mut State,
) -> Result<Option<u32>, Memory>
    ensures given { IfOk result (λ r. calls_of scope.now.functions.now scope.now.depth number values.now arrays.now state.old.world state.old.trace ≡ given_of r state.new) }
    ensures variables { IfOk result (λ r. OnSome r (state.new.variables ≡ state.old.variables)) }
{
    if scope.depth == 0 {
        return Ok(None);
    }
    let Some(function) = scope.functions.get(number as usize) else {
        return Ok(None);
    };
    if !takes(function, values, arrays) {
        return Ok(None);
    }
    let inner = Scope {
        alloc: scope.alloc,
        functions: scope.functions,
        depth: scope.depth - 1,
        passed: arrays,
    };
    let outer = state.exchange(frame(scope.alloc, function, values)?);
    let given = run_body(&inner, number, function, state)?;
    state.exchange(outer);
    Ok(given)
}
