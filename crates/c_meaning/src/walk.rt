// The walk over a program: one cycle of functions, from expressions through calls to statements.
ghost use Rattle.std.specs.Prelude.{◌≡◌, true, false, map, Some, IfOk};
ghost use Rattle.facts_definitions.specs.Most.{bounds_at};
ghost use Rattle.types_tree.specs.View.{declaration_of, expr_of, exprs_of, initial_of, items_of, object_of, place_of, start_of, statement_of};
ghost use Rattle.meaning_semantics.specs.Runs.{given_back};
ghost use Rattle.meaning_semantics.specs.State.{Fine, needed, outcome_of, read, then_do, truth as truth_word};
ghost use Rattle.meaning_semantics.specs.Statements.{all_declared, declared, dropped, behind, body_run, entered, followed, has_case, initialised, listed, loop_of, loop_test, looped, out_of_switch, started};
ghost use Rattle.meaning_semantics.specs.Values.{both, called, targeted};
ghost use Rattle.c_meaning.specs.Scopes.{calls_of, find_in, item_run, joined_in, placed_in, run_from_in, run_in, run_items_in, source_of, unary_in, value_in, values_in, words_of};

use super::parts::{
    behind, bounds_at, enter, forget, given_back, goes_on_at, has_case, leave, leaving,
    out_of_switch, step, update,
};
use facts_definitions::Bounds;
use meaning_semantics::{Flow, Found, Operands, State, Stop, Target, need, settle, truth};
use std::alloc::Global;
use types_tree::declaration::{Declaration, Initial, Object};
use types_tree::expression::{Callee, Expr, ObjectId, Place};
use types_tree::program::Program;
use types_tree::statement::{ForStart, Item, LoopId, Statement};
use wcc_base::Memory;

/// A program, the bounds of its loops, and how deep calls may nest yet.
#[derive(Drop)]
pub struct Scope<'a> {
    pub alloc: Global,
    pub program: &'a Program,
    pub bounds: &'a [Bounds],
    pub depth: u64,
}

/// Whether the value of a call is used, and its place.
#[derive(Clone, Copy)]
struct Use {
    used: bool,
    at: u32,
}

/// What a part of a run gives, or why the run stops there.
pub type Answer<T> = Result<Result<T, Stop>, Memory>;

/// Finds what is read, assigned or stepped.
#[cycle(walk)]
#[inline(never)]
fn find(scope: &Scope, place: &Place, state: &mut State) -> Answer<Found>
    ensures { IfOk result (λ r. find_in scope.now (place_of place.now) state.old ≡ outcome_of r state.new) }
{
    match place {
        Place::Scalar { object, at } => Ok(Ok(Found {
            object: object.0 as usize,
            index: 0,
            at: *at,
        })),
        Place::Element { array, index, at } => match value(scope, index, true, state)? {
            Err(stop) => Ok(Err(stop)),
            Ok(index) => match state.array_number(&scope.program.variables, array.0, *at) {
                Err(stop) => Ok(Err(stop)),
                Ok(object) => Ok(state.place(Found {
                    object: object as usize,
                    index: index as usize,
                    at: *at,
                })),
            },
        },
        Place::Paren { inner, .. } => find(scope, inner, state),
    }
}

/// The operands from the left to the right.
#[cycle(walk)]
#[inline(never)]
fn both(scope: &Scope, left: &Expr, right: &Expr, state: &mut State) -> Answer<Operands>
    ensures { IfOk result (λ r. both (value_in scope.now (expr_of left.now) true) (value_in scope.now (expr_of right.now) true) state.old ≡ outcome_of r state.new) }
{
    match value(scope, left, true, state)? {
        Err(stop) => Ok(Err(stop)),
        Ok(left) => match value(scope, right, true, state)? {
            Err(stop) => Ok(Err(stop)),
            Ok(right) => Ok(Ok(Operands { left, right })),
        },
    }
}

/// Finds what is assigned, and then evaluates the right side.
#[cycle(walk)]
#[inline(never)]
fn target(scope: &Scope, place: &Place, right: &Expr, state: &mut State) -> Answer<Target>
    ensures { IfOk result (λ r. targeted (find_in scope.now (place_of place.now)) (value_in scope.now (expr_of right.now) true) state.old ≡ outcome_of r state.new) }
{
    match find(scope, place, state)? {
        Err(stop) => Ok(Err(stop)),
        Ok(found) => match value(scope, right, true, state)? {
            Err(stop) => Ok(Err(stop)),
            Ok(word) => Ok(Ok(Target { found, word })),
        },
    }
}

/// 1 where the value is not 0.
#[cycle(walk)]
#[inline(never)]
fn truth_of(scope: &Scope, expr: &Expr, state: &mut State) -> Answer<u32>
    ensures { IfOk result (λ r. then_do (value_in scope.now (expr_of expr.now) true state.old) (λ word st. Fine (truth_word word) st) ≡ outcome_of r state.new) }
{
    match value(scope, expr, true, state)? {
        Err(stop) => Ok(Err(stop)),
        Ok(word) => Ok(Ok(truth(word))),
    }
}

/// The value of an expression. Where it is not used, a call may lack one. Its frame is small, and so are those of the
/// functions for the kinds of expressions.
#[cycle(walk)]
pub fn value(scope: &Scope, expr: &Expr, used: bool, state: &mut State) -> Answer<u32>
    ensures { IfOk result (λ r. value_in scope.now (expr_of expr.now) used state.old ≡ outcome_of r state.new) }
{
    match expr {
        Expr::Number { constant, .. } => Ok(Ok(constant.value)),
        Expr::Character { value: byte, .. } => Ok(Ok(u32::from(*byte))),
        Expr::Array { object, at } => {
            Ok(state.array_number(&scope.program.variables, object.0, *at))
        }
        Expr::Paren { inner, .. } => value(scope, inner, used, state),
        Expr::Call {
            callee,
            arguments,
            at,
        } => call_value(scope, *callee, arguments, Use { used, at: *at }, state),
        Expr::Read(place) => read_value(scope, place, state),
        Expr::Step { .. } => placed_value(scope, expr, state),
        Expr::Assign { .. } => placed_value(scope, expr, state),
        Expr::Update { .. } => placed_value(scope, expr, state),
        Expr::Sign { .. } => unary_value(scope, expr, used, state),
        Expr::Cast { .. } => unary_value(scope, expr, used, state),
        Expr::Convert { .. } => unary_value(scope, expr, used, state),
        Expr::Operate { .. } => joined_value(scope, expr, used, state),
        Expr::And { .. } => joined_value(scope, expr, used, state),
        Expr::Or { .. } => joined_value(scope, expr, used, state),
        Expr::Comma { .. } => joined_value(scope, expr, used, state),
        Expr::Conditional { .. } => joined_value(scope, expr, used, state),
    }
}

/// What an element holds.
#[cycle(walk)]
#[inline(never)]
fn read_value(scope: &Scope, place: &Place, state: &mut State) -> Answer<u32>
    ensures { IfOk result (λ r. then_do (find_in scope.now (place_of place.now) state.old) read ≡ outcome_of r state.new) }
{
    match find(scope, place, state)? {
        Err(stop) => Ok(Err(stop)),
        Ok(found) => Ok(state.read(found)),
    }
}

/// The value of what steps or assigns an element.
#[cycle(walk)]
#[inline(never)]
fn placed_value(scope: &Scope, expr: &Expr, state: &mut State) -> Answer<u32>
    ensures { IfOk result (λ r. placed_in scope.now (expr_of expr.now) state.old ≡ outcome_of r state.new) }
{
    match expr {
        Expr::Step {
            fix,
            operator,
            kind,
            target: place,
            at,
        } => match find(scope, place, state)? {
            Err(stop) => Ok(Err(stop)),
            Ok(found) => Ok(step(state, found.at_place(*at), *fix, *operator, *kind)),
        },
        Expr::Assign {
            target: place,
            value: right,
            ..
        } => match target(scope, place, right, state)? {
            Err(stop) => Ok(Err(stop)),
            Ok(target) => Ok(state.write(target.found, target.word)),
        },
        Expr::Update {
            operator,
            kind,
            to,
            target: place,
            value: right,
            at,
        } => match target(scope, place, right, state)? {
            Err(stop) => Ok(Err(stop)),
            Ok(target) => Ok(update(state, target.at_place(*at), *operator, *kind, *to)),
        },
        _ => Ok(Ok(0)),
    }
}

/// The value of an operator or conversion before its operand.
#[cycle(walk)]
#[inline(never)]
fn unary_value(scope: &Scope, expr: &Expr, used: bool, state: &mut State) -> Answer<u32>
    ensures { IfOk result (λ r. unary_in scope.now (expr_of expr.now) used state.old ≡ outcome_of r state.new) }
{
    match expr {
        Expr::Sign {
            operator,
            kind,
            operand,
            at,
        } => match value(scope, operand, true, state)? {
            Err(stop) => Ok(Err(stop)),
            Ok(word) => Ok(settle(operator.compute(*kind, word), *at)),
        },
        Expr::Cast { to, operand, .. } => match value(scope, operand, !to.is_void(), state)? {
            Err(stop) => Ok(Err(stop)),
            Ok(word) => Ok(Ok(to.convert(word))),
        },
        Expr::Convert { to, operand } => match value(scope, operand, used, state)? {
            Err(stop) => Ok(Err(stop)),
            Ok(word) => Ok(Ok(to.convert(word))),
        },
        _ => Ok(Ok(0)),
    }
}

/// The value of what has several operands.
#[cycle(walk)]
#[inline(never)]
fn joined_value(scope: &Scope, expr: &Expr, used: bool, state: &mut State) -> Answer<u32>
    ensures { IfOk result (λ r. joined_in scope.now (expr_of expr.now) used state.old ≡ outcome_of r state.new) }
{
    match expr {
        Expr::Operate {
            operator,
            kind,
            left,
            right,
            at,
        } => match both(scope, left, right, state)? {
            Err(stop) => Ok(Err(stop)),
            Ok(words) => Ok(settle(operator.compute(*kind, words.left, words.right), *at)),
        },
        Expr::And { left, right, .. } => match value(scope, left, true, state)? {
            Err(stop) => Ok(Err(stop)),
            Ok(0) => Ok(Ok(0)),
            Ok(_) => truth_of(scope, right, state),
        },
        Expr::Or { left, right, .. } => match value(scope, left, true, state)? {
            Err(stop) => Ok(Err(stop)),
            Ok(0) => truth_of(scope, right, state),
            Ok(_) => Ok(Ok(1)),
        },
        Expr::Comma { left, right, .. } => match value(scope, left, false, state)? {
            Err(stop) => Ok(Err(stop)),
            Ok(_) => value(scope, right, used, state),
        },
        Expr::Conditional {
            test,
            then,
            otherwise,
            ..
        } => match value(scope, test, true, state)? {
            Err(stop) => Ok(Err(stop)),
            Ok(0) => value(scope, otherwise, used, state),
            Ok(_) => value(scope, then, used, state),
        },
        _ => Ok(Ok(0)),
    }
}

/// The value of a call.
#[cycle(walk)]
#[inline(never)]
fn call_value(
    scope: &Scope,
    callee: Callee,
    arguments: &[Expr],
    of: Use,
    state: &mut State,
) -> Answer<u32>
    ensures { IfOk result (λ r. then_do (then_do (values_in scope.now (exprs_of arguments.now) state.old) (called (calls_of scope.now) callee of.at)) (needed of.used of.at) ≡ outcome_of r state.new) }
{
    match invoke(scope, callee, arguments, of.at, state)? {
        Err(stop) => Ok(Err(stop)),
        Ok(given) => Ok(need(of.used, of.at, given)),
    }
}

/// The values of arguments, from the left to the right.
#[cycle(walk)]
#[inline(never)]
fn values(scope: &Scope, exprs: &[Expr], state: &mut State) -> Answer<Vec<u32>>
    ensures { IfOk result (λ r. values_in scope.now (exprs_of exprs.now) state.old ≡ words_of r state.new) }
{
    let mut words = Vec::new(scope.alloc);
    for expr in exprs {
        match value(scope, expr, true, state)? {
            Err(stop) => return Ok(Err(stop)),
            Ok(word) => words.push(word)?,
        }
    }
    Ok(Ok(words))
}

/// Evaluates the arguments and calls.
#[cycle(walk)]
#[inline(never)]
fn invoke(
    scope: &Scope,
    callee: Callee,
    arguments: &[Expr],
    at: u32,
    state: &mut State,
) -> Answer<Option<u32>>
    ensures { IfOk result (λ r. then_do (values_in scope.now (exprs_of arguments.now) state.old) (called (calls_of scope.now) callee at) ≡ outcome_of r state.new) }
{
    let words = match values(scope, arguments, state)? {
        Err(stop) => return Ok(Err(stop)),
        Ok(words) => words,
    };
    match callee {
        Callee::Getchar => Ok(Ok(Some(state.get()))),
        Callee::Putchar => {
            let word = words.first().copied().unwrap_or(0);
            Ok(Ok(Some(state.put(word)?)))
        }
        Callee::Function(number) => call(scope, number.0 as usize, &words, at, state),
    }
}

/// Calls a function with these words.
#[cycle(walk)]
pub fn call(
    scope: &Scope,
    number: usize,
    words: &[u32],
    at: u32,
    state: &mut State,
) -> Answer<Option<u32>>
    ensures { IfOk result (λ r. calls_of scope.now number words.now at state.old ≡ outcome_of r state.new) }
{
    if scope.depth == 0 {
        return Ok(Err(Stop::Undefined { rule: 0, at }));
    }
    let Some(function) = scope.program.functions.get(number) else {
        return Ok(Err(Stop::Undefined { rule: 0, at }));
    };
    let inner = Scope {
        alloc: scope.alloc,
        program: scope.program,
        bounds: scope.bounds,
        depth: scope.depth - 1,
    };
    state.count(number)?;
    match state.bind(function.first.0, at, words) {
        Err(stop) => Ok(Err(stop)),
        Ok(_) => run_body(&inner, &function.body, state),
    }
}

/// Runs the body of a function.
#[cycle(walk)]
#[inline(never)]
fn run_body(scope: &Scope, body: &[Item], state: &mut State) -> Answer<Option<u32>>
    ensures { IfOk result (λ r. then_do (run_items_in scope.now (items_of body.now) (entered (items_of body.now) state.old)) (λ flow st. Fine (given_back flow) st) ≡ outcome_of r state.new) }
{
    enter(body, state);
    match run_items(scope, body, state)? {
        Err(stop) => Ok(Err(stop)),
        Ok(flow) => Ok(Ok(given_back(flow))),
    }
}

/// An expression whose value is dropped.
#[cycle(walk)]
#[inline(never)]
fn drop_value(scope: &Scope, expr: &Expr, state: &mut State) -> Answer<Flow>
    ensures { IfOk result (λ r. dropped (source_of scope.now) (calls_of scope.now) (expr_of expr.now) state.old ≡ outcome_of r state.new) }
{
    match value(scope, expr, false, state)? {
        Err(stop) => Ok(Err(stop)),
        Ok(_) => Ok(Ok(Flow::Onward)),
    }
}

/// Writes each value of a list when it is reached, and gives how many there are.
#[cycle(walk)]
#[inline(never)]
fn list(
    scope: &Scope,
    exprs: &[Expr],
    object: ObjectId,
    at: u32,
    state: &mut State,
) -> Answer<usize>
    ensures { IfOk result (λ r. listed (source_of scope.now) (calls_of scope.now) (exprs_of exprs.now) object.0 at 0 state.old ≡ outcome_of r state.new) }
{
    let mut index = 0;
    for expr in exprs {
        let word = match value(scope, expr, true, state)? {
            Err(stop) => return Ok(Err(stop)),
            Ok(word) => word,
        };
        let found = Found {
            object: object.0 as usize,
            index,
            at,
        };
        match state.write(found, word) {
            Err(stop) => return Ok(Err(stop)),
            Ok(_) => {}
        }
        index += 1;
    }
    Ok(Ok(index))
}

/// Writes the initial value of an object.
#[cycle(walk)]
#[inline(never)]
fn initialize(
    scope: &Scope,
    initial: &Initial,
    object: ObjectId,
    at: u32,
    state: &mut State,
) -> Answer<Flow>
    ensures { IfOk result (λ r. initialised (source_of scope.now) (calls_of scope.now) (initial_of initial.now) object.0 at state.old ≡ outcome_of r state.new) }
{
    match initial {
        Initial::Absent => Ok(Ok(Flow::Onward)),
        Initial::Value(expr) => match value(scope, expr, true, state)? {
            Err(stop) => Ok(Err(stop)),
            Ok(word) => match state.write(
                Found {
                    object: object.0 as usize,
                    index: 0,
                    at,
                },
                word,
            ) {
                Err(stop) => Ok(Err(stop)),
                Ok(_) => Ok(Ok(Flow::Onward)),
            },
        },
        Initial::List { values, .. } => match list(scope, values, object, at, state)? {
            Err(stop) => Ok(Err(stop)),
            Ok(count) => {
                state.zero(object.0, count);
                Ok(Ok(Flow::Onward))
            }
        },
    }
}

#[cycle(walk)]
#[inline(never)]
fn declare_objects(scope: &Scope, objects: &[Object], state: &mut State) -> Answer<Flow>
    ensures { IfOk result (λ r. all_declared (source_of scope.now) (calls_of scope.now) (map object_of objects.now) state.old ≡ outcome_of r state.new) }
{
    for object in objects {
        match initialize(scope, &object.initial, object.object, object.at, state)? {
            Err(stop) => return Ok(Err(stop)),
            Ok(_) => {}
        }
    }
    Ok(Ok(Flow::Onward))
}

#[cycle(walk)]
pub fn declare(scope: &Scope, declaration: &Declaration, state: &mut State) -> Answer<Flow>
    ensures { IfOk result (λ r. declared (source_of scope.now) (calls_of scope.now) (declaration_of declaration.now) state.old ≡ outcome_of r state.new) }
{
    match declaration {
        Declaration::Objects { objects, .. } => declare_objects(scope, objects, state),
        Declaration::Prototype { .. } => Ok(Ok(Flow::Onward)),
    }
}

/// What stands first in the head of a `for`.
#[cycle(walk)]
#[inline(never)]
fn begin(scope: &Scope, start: &ForStart, state: &mut State) -> Answer<Flow>
    ensures { IfOk result (λ r. started (source_of scope.now) (calls_of scope.now) (start_of start.now) state.old ≡ outcome_of r state.new) }
{
    match start {
        ForStart::Absent => Ok(Ok(Flow::Onward)),
        ForStart::Expression(expr) => drop_value(scope, expr, state),
        ForStart::Declaration(declaration) => {
            forget(declaration, state);
            declare(scope, declaration, state)
        }
    }
}

/// The test of a loop.
#[cycle(walk)]
fn test(scope: &Scope, of: &Statement, state: &mut State) -> Answer<u32>
    ensures { IfOk result (λ r. loop_test (source_of scope.now) (calls_of scope.now) (statement_of of.now) state.old ≡ outcome_of r state.new) }
{
    match of {
        Statement::While { test, .. } => value(scope, test, true, state),
        Statement::For {
            test: Some(test),
            ..
        } => value(scope, test, true, state),
        _ => Ok(Ok(1)),
    }
}

/// What stands behind the body of a loop.
#[cycle(walk)]
fn follow(scope: &Scope, of: &Statement, state: &mut State) -> Answer<Flow>
    ensures { IfOk result (λ r. followed (source_of scope.now) (calls_of scope.now) (statement_of of.now) state.old ≡ outcome_of r state.new) }
{
    match of {
        Statement::Do { test, .. } => match value(scope, test, true, state)? {
            Err(stop) => Ok(Err(stop)),
            Ok(0) => Ok(Ok(Flow::Break)),
            Ok(_) => Ok(Ok(Flow::Onward)),
        },
        Statement::For {
            step: Some(step),
            ..
        } => drop_value(scope, step, state),
        _ => Ok(Ok(Flow::Onward)),
    }
}

/// One run of the body of a loop.
#[cycle(walk)]
fn run_loop_body(scope: &Scope, of: &Statement, state: &mut State) -> Answer<Flow>
    ensures { IfOk result (λ r. body_run (source_of scope.now) (calls_of scope.now) (statement_of of.now) state.old ≡ outcome_of r state.new) }
{
    match of {
        Statement::While { body, .. } => run(scope, body, state),
        Statement::Do { body, .. } => run(scope, body, state),
        Statement::For { body, .. } => run(scope, body, state),
        _ => Ok(Ok(Flow::Onward)),
    }
}

/// One start of the body of a loop, with what stands behind it.
#[cycle(walk)]
#[inline(never)]
fn round(scope: &Scope, of: &Statement, state: &mut State) -> Answer<Flow>
    ensures { IfOk result (λ r. then_do (body_run (source_of scope.now) (calls_of scope.now) (statement_of of.now) state.old) (behind (followed (source_of scope.now) (calls_of scope.now) (statement_of of.now))) ≡ outcome_of r state.new) }
{
    match run_loop_body(scope, of, state)? {
        Err(stop) => Ok(Err(stop)),
        Ok(Flow::Onward) => follow(scope, of, state),
        Ok(Flow::Continue) => follow(scope, of, state),
        Ok(Flow::Break) => Ok(Ok(Flow::Break)),
        Ok(Flow::Return(word)) => Ok(Ok(Flow::Return(word))),
    }
}

/// A loop that has begun.
#[cycle(walk)]
#[inline(never)]
fn repeat(scope: &Scope, of: &Statement, number: LoopId, at: u32, state: &mut State) -> Answer<Flow>
    ensures { IfOk result (λ r. looped (bounds_at scope.now.bounds.now number.0) (loop_of (source_of scope.now) (calls_of scope.now) (statement_of of.now) at) state.old ≡ outcome_of r state.new) }
{
    let bounds = bounds_at(scope.bounds, number);
    let mut owed = bounds.min;
    for _ in 0..bounds.max {
        match test(scope, of, state)? {
            Err(stop) => return Ok(Err(stop)),
            Ok(0) => return Ok(leave(owed, at, Flow::Onward)),
            Ok(_) => {}
        }
        owed = owed.saturating_sub(1);
        match round(scope, of, state)? {
            Err(stop) => return Ok(Err(stop)),
            Ok(flow) => {
                if let Some(flow) = leaving(flow) {
                    return Ok(leave(owed, at, flow));
                }
            }
        }
    }
    match test(scope, of, state)? {
        Err(stop) => Ok(Err(stop)),
        Ok(0) => Ok(leave(owed, at, Flow::Onward)),
        Ok(_) => Ok(Err(Stop::Broken { at })),
    }
}

/// The statement or the other, by a test.
#[cycle(walk)]
pub fn run(scope: &Scope, statement: &Statement, state: &mut State) -> Answer<Flow>
    ensures { IfOk result (λ r. run_in scope.now (statement_of statement.now) state.old ≡ outcome_of r state.new) }
{
    match statement {
        Statement::Block { items, .. } => {
            enter(items, state);
            run_items(scope, items, state)
        }
        Statement::Empty { .. } => Ok(Ok(Flow::Onward)),
        Statement::Evaluate { value, .. } => drop_value(scope, value, state),
        Statement::Marker { number, .. } => {
            state.count(scope.program.functions.len() + number.0 as usize)?;
            Ok(Ok(Flow::Onward))
        }
        Statement::If { test, then, .. } => match value(scope, test, true, state)? {
            Err(stop) => Ok(Err(stop)),
            Ok(0) => Ok(Ok(Flow::Onward)),
            Ok(_) => run(scope, then, state),
        },
        Statement::IfElse {
            test,
            then,
            otherwise,
            ..
        } => match value(scope, test, true, state)? {
            Err(stop) => Ok(Err(stop)),
            Ok(0) => run(scope, otherwise, state),
            Ok(_) => run(scope, then, state),
        },
        Statement::While { number, at, .. } => repeat(scope, statement, *number, *at, state),
        Statement::Do { number, at, .. } => repeat(scope, statement, *number, *at, state),
        Statement::For {
            number,
            start,
            at,
            ..
        } => match begin(scope, start, state)? {
            Err(stop) => Ok(Err(stop)),
            Ok(_) => repeat(scope, statement, *number, *at, state),
        },
        Statement::Switch { test, items, .. } => match value(scope, test, true, state)? {
            Err(stop) => Ok(Err(stop)),
            Ok(word) => choose(scope, word, items, state),
        },
        Statement::Break { .. } => Ok(Ok(Flow::Break)),
        Statement::Continue { .. } => Ok(Ok(Flow::Continue)),
        Statement::Return { value: None, .. } => Ok(Ok(Flow::Return(None))),
        Statement::Return {
            value: Some(of),
            ..
        } => match value(scope, of, true, state)? {
            Err(stop) => Ok(Err(stop)),
            Ok(word) => Ok(Ok(Flow::Return(Some(word)))),
        },
    }
}

/// Enters a switch at the label of a word.
#[cycle(walk)]
#[inline(never)]
fn choose(scope: &Scope, word: u32, items: &[Item], state: &mut State) -> Answer<Flow>
    ensures { IfOk result (λ r. then_do (run_from_in scope.now (has_case word (items_of items.now)) word (items_of items.now) (entered (items_of items.now) state.old)) out_of_switch ≡ outcome_of r state.new) }
{
    enter(items, state);
    match run_from(scope, has_case(items, word), word, items, state)? {
        Err(stop) => Ok(Err(stop)),
        Ok(flow) => Ok(Ok(out_of_switch(flow))),
    }
}

/// The items behind the label at which a switch goes on, or none of them.
#[cycle(walk)]
#[inline(never)]
fn run_from(
    scope: &Scope,
    found: bool,
    word: u32,
    items: &[Item],
    state: &mut State,
) -> Answer<Flow>
    ensures { IfOk result (λ r. run_from_in scope.now found word (items_of items.now) state.old ≡ outcome_of r state.new) }
{
    for index in 0..items.len() {
        if goes_on_at(&items[index], found, word) {
            return run_items(scope, behind(items, index), state);
        }
    }
    Ok(Ok(Flow::Onward))
}

#[cycle(walk)]
#[inline(never)]
fn run_items(scope: &Scope, items: &[Item], state: &mut State) -> Answer<Flow>
    ensures { IfOk result (λ r. run_items_in scope.now (items_of items.now) state.old ≡ outcome_of r state.new) }
{
    for item in items {
        match run_item(scope, item, state)? {
            Err(stop) => return Ok(Err(stop)),
            Ok(Flow::Onward) => {}
            Ok(Flow::Break) => return Ok(Ok(Flow::Break)),
            Ok(Flow::Continue) => return Ok(Ok(Flow::Continue)),
            Ok(Flow::Return(word)) => return Ok(Ok(Flow::Return(word))),
        }
    }
    Ok(Ok(Flow::Onward))
}

#[cycle(walk)]
fn run_item(scope: &Scope, item: &Item, state: &mut State) -> Answer<Flow>
    ensures { IfOk result (λ r. item_run (source_of scope.now) (calls_of scope.now) item.now state.old ≡ outcome_of r state.new) }
{
    match item {
        Item::Declaration(declaration) => declare(scope, declaration, state),
        Item::Statement(statement) => run(scope, statement, state),
        Item::Restriction(_) => Ok(Ok(Flow::Onward)),
        Item::Label(_) => Ok(Ok(Flow::Onward)),
    }
}
