// Steps: `++` and `--`.
ghost use Rattle.std.specs.Prelude.{◌≡◌, IfOk};
ghost use Rattle.make_expression.specs.Makes.{element_behind, stepped_word};
ghost use Rattle.make_pieces.specs.View.{aimed_of, code_of, leaf_expr, steady_of, valued_of};
ghost use Rattle.high_ir.specs.Tree.{Element, Keep, Set};
ghost use Rattle.high_ir.specs.View.{expr_of, statement_of};
ghost use Rattle.plan_definition.specs.Homes as homes;
ghost use Rattle.plan_definition.specs.Operators.{convert};
ghost use Rattle.plan_definition.specs.Values.{step_operator, stepped, stepped_behind};

use super::assigning::{Change, updated};
use c_tree::expression::PostfixOperator;
use high_ir::expression::Expr;
use high_ir::expressions::{element, let_go_expr};
use high_ir::object::Array;
use high_ir::statement::Statement;
use make_pieces::numbers::sum;
use make_pieces::operators::{convert, operated};
use make_pieces::{Aimed, Code, Leaf, Steady, Target, Valued};
use plan_definition::Purpose;
use std::alloc::Global;
use types_tree::expression::Fix;
use types_value::{Kind, Operator};
use wcc_base::Memory;

fn step_operator(operator: PostfixOperator) -> Operator
    ensures { result ≡ step_operator operator }
{
    match operator {
        PostfixOperator::Increment => Operator::Add,
        PostfixOperator::Decrement => Operator::Subtract,
    }
}

/// What a variable is stepped to.
fn stepped_word(alloc: Global, operator: Operator, kind: Kind, x: u32) -> Result<Expr, Memory>
    ensures { IfOk result (λ e. expr_of e ≡ stepped_word operator kind x) }
{
    operated(
        alloc,
        operator,
        kind.promoted().is_signed(),
        Expr::Variable(x),
        Expr::Constant(1),
    )
}

/// The same, converted to the type of the variable.
fn new_word(alloc: Global, operator: Operator, kind: Kind, x: u32) -> Result<Expr, Memory>
    ensures { IfOk result (λ e. expr_of e ≡ convert kind (stepped_word operator kind x)) }
{
    convert(alloc, kind, stepped_word(alloc, operator, kind, x)?)
}

/// A variable that is stepped, with its old value in the temporary.
fn variable_behind(
    alloc: Global,
    operator: Operator,
    kind: Kind,
    k: u32,
    x: u32,
    code: Code,
) -> Result<Valued, Memory>
    ensures { IfOk result (λ v. valued_of v ≡ stepped_behind operator kind k (homes.InFrame x) (code_of code)) }
{
    match new_word(alloc, operator, kind, k) {
        Ok(value) => Ok(Valued {
            code: code.then_both(
                Statement::Set {
                    variable: k,
                    value: Expr::Variable(x),
                },
                Statement::Set { variable: x, value },
            )?,
            value: Expr::Variable(k),
        }),
        Err(memory) => {
            code.let_go();
            Err(memory)
        }
    }
}

/// Code that keeps the old value of an element in a variable, and stores its new one.
fn old_and_new(
    alloc: Global,
    array: Array,
    index: Leaf,
    old: u32,
    new: Expr,
) -> Result<(Statement, Statement), Memory>
    ensures old { IfOk result (λ p. statement_of p.0 ≡ Set old (Element array (leaf_expr index))) }
    ensures new { IfOk result (λ p. statement_of p.1 ≡ Keep array (leaf_expr index) (expr_of new)) }
{
    match element(alloc, array, index.expr()) {
        Ok(value) => Ok((
            Statement::Set {
                variable: old,
                value,
            },
            Statement::Keep {
                array,
                index: index.expr(),
                value: new,
            },
        )),
        Err(memory) => {
            let_go_expr(new);
            Err(memory)
        }
    }
}

/// An element that is stepped, with its old value in the temporary behind k.
fn element_behind(
    alloc: Global,
    operator: Operator,
    kind: Kind,
    next: u32,
    array: Array,
    index: Steady,
) -> Result<Valued, Memory>
    ensures { IfOk result (λ v. valued_of v ≡ element_behind operator kind next array (steady_of index)) }
{
    let Steady { code, value: index } = index;
    match element_steps(alloc, operator, kind, next, array, index) {
        Ok((old, new)) => Ok(Valued {
            code: code.then_both(old, new)?,
            value: Expr::Variable(next),
        }),
        Err(memory) => {
            code.let_go();
            Err(memory)
        }
    }
}

fn element_steps(
    alloc: Global,
    operator: Operator,
    kind: Kind,
    next: u32,
    array: Array,
    index: Leaf,
) -> Result<(Statement, Statement), Memory>
    ensures old { IfOk result (λ p. statement_of p.0 ≡ Set next (Element array (leaf_expr index))) }
    ensures new { IfOk result (λ p. statement_of p.1 ≡ Keep array (leaf_expr index) (stepped_word operator kind next)) }
{
    let new = stepped_word(alloc, operator, kind, next)?;
    old_and_new(alloc, array, index, next, new)
}

/// A step whose value is the old one.
fn stepped_behind(
    alloc: Global,
    operator: Operator,
    kind: Kind,
    k: u32,
    aimed: Aimed,
) -> Result<Valued, Memory>
    ensures { IfOk result (λ v. valued_of v ≡ stepped_behind operator kind k (aimed_of aimed).target (aimed_of aimed).code) }
{
    let Aimed { code, target } = aimed;
    match target {
        Target::InFrame(x) => variable_behind(alloc, operator, kind, k, x, code),
        Target::InMemory { array, index } => {
            let index = Valued { code, value: index }.firm(k, Code::new(alloc))?;
            match sum(k, 1) {
                Ok(next) => element_behind(alloc, operator, kind, next, array, index),
                Err(memory) => {
                    index.let_go();
                    Err(memory)
                }
            }
        }
    }
}

/// Whether a step's value is that before it, which step it is, and the type of its place.
#[derive(Clone, Copy)]
pub struct Step {
    pub fix: Fix,
    pub operator: PostfixOperator,
    pub kind: Kind,
}

/// A step of a target.
pub fn stepped(
    alloc: Global,
    purpose: Purpose,
    step: Step,
    k: u32,
    aimed: Aimed,
) -> Result<Valued, Memory>
    ensures { IfOk result (λ v. valued_of v ≡ stepped purpose step.fix (step_operator step.operator) step.kind k (aimed_of aimed).target (aimed_of aimed).code) }
{
    let Step {
        fix,
        operator,
        kind,
    } = step;
    let operator = step_operator(operator);
    let change = Change {
        operator,
        kind: kind.promoted(),
        to: kind,
    };
    let one = Valued::known(alloc, 1);
    match fix {
        Fix::Prefix => updated(alloc, purpose, change, k, aimed, one),
        Fix::Postfix => match purpose {
            Purpose::Effect => updated(alloc, purpose, change, k, aimed, one),
            Purpose::Value => stepped_behind(alloc, operator, kind, k, aimed),
            Purpose::Unless { .. } => stepped_behind(alloc, operator, kind, k, aimed),
            Purpose::When { .. } => stepped_behind(alloc, operator, kind, k, aimed),
        },
    }
}
