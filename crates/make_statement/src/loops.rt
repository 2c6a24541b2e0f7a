// Loops.
ghost use Rattle.std.specs.Prelude.{◌≡◌, IfOk};
ghost use Rattle.facts_definitions.specs.Most.{bounds_at};
ghost use Rattle.c_tree.specs.Named.{map_option};
ghost use Rattle.types_tree.specs.View.{loop_of as number_of};
ghost use Rattle.high_code.specs.Code.{nothing};
ghost use Rattle.high_ir.specs.declared.expression.BinaryOperator.TheVariants as binary;
ghost use Rattle.high_ir.specs.Tree.{Binary, Constant, If, Leave, Set, Variable};
ghost use Rattle.high_ir.specs.View.{expr_of, statement_of};
ghost use Rattle.plan_definition.specs.Statements.{filled, filling, looped, stored_at};
ghost use Rattle.make_pieces.specs.View.{code_of};
ghost use Rattle.make_statement.specs.Planned.{filling_round, plan_said};

use super::plan::Plan;
use facts_definitions::{Bounds, Starts};
use high_ir::expression::{BinaryOperator, Expr};
use high_ir::expressions::{binary, let_go_expr as discard};
use high_ir::statement::Statement;
use high_ir::statements::{block, choice, let_go, loop_of};
use make_pieces::Code;
use make_pieces::numbers::sum;
use make_pieces::statements::nothing;
use plan_definition::Home;
use std::alloc::Global;
use types_tree::statement::LoopId;
use wcc_base::Memory;

/// The bounds of the loop of this number.
pub fn bounds_at(bounds: &[Bounds], number: u32) -> Bounds
    ensures { result ≡ bounds_at bounds.now number }
{
    let index = number.saturating_sub(1) as usize;
    if index < bounds.len() {
        return bounds[index];
    }
    Bounds { min: 0, max: 0 }
}

/// A loop, which is left by leaving the block around it.
pub fn looped(alloc: Global, id: u32, starts: Starts, round: Code) -> Result<Code, Memory>
    ensures { IfOk result (λ c. code_of c ≡ looped id starts (code_of round)) }
{
    let body = loop_of(alloc, id, starts.least, starts.most, round.seq())?;
    Code::alone(alloc, block(alloc, body)?)
}

/// An element of an object.
pub fn stored_at(home: Home, index: Expr, value: Expr) -> Statement
    ensures { statement_of result ≡ stored_at home (expr_of index) (expr_of value) }
{
    match home {
        Home::Frame(variable) => {
            discard(index);
            Statement::Set { variable, value }
        }
        Home::Memory(array) => Statement::Keep {
            array,
            index,
            value,
        },
    }
}

/// One more than a variable.
fn next_of(alloc: Global, k: u32) -> Result<Statement, Memory>
    ensures { IfOk result (λ s. statement_of s ≡ Set k (Binary binary.Add (Variable k) (Constant 1))) }
{
    Ok(Statement::Set {
        variable: k,
        value: binary(
            alloc,
            BinaryOperator::Add,
            Expr::Variable(k),
            Expr::Constant(1),
        )?,
    })
}

/// Leaves the block where a variable has come to its end.
fn leave_at(alloc: Global, k: u32, end: u32) -> Result<Statement, Memory>
    ensures { IfOk result (λ s. statement_of s ≡ If (Binary binary.LessUnsigned (Variable k) (Constant end)) nothing (Leave 0)) }
{
    let test = binary(
        alloc,
        BinaryOperator::LessUnsigned,
        Expr::Variable(k),
        Expr::Constant(end),
    )?;
    choice(alloc, test, nothing(alloc), Statement::Leave { depth: 0 })
}

/// One start of the loop that fills elements with 0.
fn filling_round(alloc: Global, home: Home, k: u32, end: u32) -> Result<Code, Memory>
    ensures { IfOk result (λ c. code_of c ≡ filling_round home k end) }
{
    let zero = stored_at(home, Expr::Variable(k), Expr::Constant(0));
    let code = Code::alone(alloc, zero)?;
    match next_and_leave(alloc, k, end) {
        Ok((next, leave)) => code.then_both(next, leave),
        Err(memory) => {
            code.let_go();
            Err(memory)
        }
    }
}

fn next_and_leave(alloc: Global, k: u32, end: u32) -> Result<(Statement, Statement), Memory>
    ensures next { IfOk result (λ p. statement_of p.0 ≡ Set k (Binary binary.Add (Variable k) (Constant 1))) }
    ensures leave { IfOk result (λ p. statement_of p.1 ≡ If (Binary binary.LessUnsigned (Variable k) (Constant end)) nothing (Leave 0)) }
{
    let next = next_of(alloc, k)?;
    match leave_at(alloc, k, end) {
        Ok(leave) => Ok((next, leave)),
        Err(memory) => {
            let_go(next);
            Err(memory)
        }
    }
}

/// What a list leaves over: so many elements from `from` on, which the loop of this number fills.
#[derive(Clone, Copy)]
struct Rest {
    id: u32,
    from: u32,
    count: u32,
}

/// Elements of an object are 0: a loop whose bounds are how many they are.
fn filled(alloc: Global, home: Home, rest: Rest, k: u32) -> Result<Code, Memory>
    ensures { IfOk result (λ c. code_of c ≡ filled home rest.id rest.from rest.count k) }
{
    let Rest { id, from, count } = rest;
    let starts = Starts {
        least: count,
        most: count,
    };
    let round = filling_round(alloc, home, k, sum(from, count)?)?;
    let filling = looped(alloc, id, starts, round)?;
    let first = Statement::Set {
        variable: k,
        value: Expr::Constant(from),
    };
    match Code::alone(alloc, first) {
        Ok(code) => code.joined(filling),
        Err(memory) => {
            filling.let_go();
            Err(memory)
        }
    }
}

/// The loop of the source that fills what a list leaves over, where there is one. It stands before `shift` loops whose
/// keywords come first.
#[derive(Clone, Copy)]
pub struct Filler {
    pub number: Option<LoopId>,
    pub shift: u32,
}

/// The filling of the elements that a list leaves over, from `from` on.
pub fn filling(plan: &Plan, home: Home, filler: Filler, from: u32, k: u32) -> Result<Code, Memory>
    ensures { IfOk result (λ c. code_of c ≡ filling (plan_said plan.now) home filler.shift (map_option number_of filler.number) from k) }
{
    let alloc = plan.scope.alloc;
    match filler.number {
        None => Ok(Code::new(alloc)),
        Some(number) => {
            let rest = Rest {
                id: number.0.saturating_sub(1).saturating_sub(filler.shift),
                from,
                count: bounds_at(plan.bounds, number.0).max,
            };
            filled(alloc, home, rest, k)
        }
    }
}
