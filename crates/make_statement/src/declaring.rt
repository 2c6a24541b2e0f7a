// Declarations.
ghost use Rattle.std.specs.Prelude.{◌≡◌, IfOk, map};
ghost use Rattle.c_tree.specs.Named.{map_option};
ghost use Rattle.types_tree.specs.View.{declaration_of, expr_of as source_of, exprs_of, initial_of, loop_of, object_of, start_of};
ghost use Rattle.high_code.specs.Code.{joined};
ghost use Rattle.plan_definition.specs.Statements.{all_declared, declared, initialised, listed, started};
ghost use Rattle.make_pieces.specs.View.{code_of};
ghost use Rattle.make_statement.specs.Planned.{element_planned, list_planned, object_planned, plan_said};

use super::loops::{Filler, filling, stored_at};
use super::plan::Plan;
use high_ir::expression::Expr;
use make_expression::{code, value};
use make_pieces::homes::home_of;
use make_pieces::numbers::offset;
use make_pieces::{Code, Valued};
use plan_definition::{Home, Purpose};
use types_tree::declaration::{Declaration, Initial, Object};
use types_tree::expression::Expr as Source;
use types_tree::statement::ForStart;
use wcc_base::Memory;

/// An element of an object.
#[derive(Clone, Copy)]
struct Slot {
    home: Home,
    index: u32,
}

/// An element that has the value of an expression.
fn element(plan: &Plan, at: Slot, expr: &Source, k: u32) -> Result<Code, Memory>
    ensures { IfOk result (λ c. code_of c ≡ element_planned (plan_said plan.now) at.home (source_of expr.now) at.index k) }
{
    let Valued { code, value } = value(&plan.scope, expr, k)?;
    code.then(stored_at(at.home, Expr::Constant(at.index), value))
}

/// The same behind other code.
fn with_element(plan: &Plan, at: Slot, expr: &Source, k: u32, before: Code) -> Result<Code, Memory>
    ensures { IfOk result (λ c. code_of c ≡ joined (code_of before) (element_planned (plan_said plan.now) at.home (source_of expr.now) at.index k)) }
{
    match element(plan, at, expr, k) {
        Ok(code) => before.joined(code),
        Err(memory) => {
            before.let_go();
            Err(memory)
        }
    }
}

/// The elements that a list has.
fn listed(plan: &Plan, home: Home, values: &[Source], k: u32) -> Result<Code, Memory>
    ensures { IfOk result (λ c. code_of c ≡ listed (plan_said plan.now) home (exprs_of values.now) 0 k) }
{
    let count = offset(0, values.len())?;
    let mut code = Code::new(plan.scope.alloc);
    for index in 0..count {
        let at = Slot { home, index };
        code = with_element(plan, at, &values[index as usize], k, code)?;
    }
    Ok(code)
}

/// The elements that a list has, and then those that it leaves over.
fn filled_list(
    plan: &Plan,
    home: Home,
    values: &[Source],
    filler: Filler,
    k: u32,
) -> Result<Code, Memory>
    ensures { IfOk result (λ c. code_of c ≡ list_planned (plan_said plan.now) home (exprs_of values.now) (map_option loop_of filler.number) filler.shift k) }
{
    let count = offset(0, values.len())?;
    let code = listed(plan, home, values, k)?;
    match filling(plan, home, filler, count, k) {
        Ok(filling) => code.joined(filling),
        Err(memory) => {
            code.let_go();
            Err(memory)
        }
    }
}

/// The first value of an object.
fn initialised(
    plan: &Plan,
    home: Home,
    initial: &Initial,
    shift: u32,
    k: u32,
) -> Result<Code, Memory>
    ensures { IfOk result (λ c. code_of c ≡ initialised (plan_said plan.now) home (initial_of initial.now) shift k) }
{
    match initial {
        Initial::Absent => Ok(Code::new(plan.scope.alloc)),
        Initial::Value(value) => element(plan, Slot { home, index: 0 }, value, k),
        Initial::List {
            values,
            filling,
            ..
        } => {
            let filler = Filler {
                number: *filling,
                shift,
            };
            Ok(filled_list(plan, home, values, filler, k)?)
        }
    }
}

fn with_object(
    plan: &Plan,
    object: &Object,
    shift: u32,
    k: u32,
    before: Code,
) -> Result<Code, Memory>
    ensures { IfOk result (λ c. code_of c ≡ joined (code_of before) (object_planned (plan_said plan.now) (object_of object.now) shift k)) }
{
    let home = home_of(plan.scope.homes, object.object.0);
    match initialised(plan, home, &object.initial, shift, k) {
        Ok(code) => before.joined(code),
        Err(memory) => {
            before.let_go();
            Err(memory)
        }
    }
}

fn all_declared(plan: &Plan, objects: &[Object], shift: u32, k: u32) -> Result<Code, Memory>
    ensures { IfOk result (λ c. code_of c ≡ all_declared (plan_said plan.now) (map object_of objects.now) shift k) }
{
    let mut code = Code::new(plan.scope.alloc);
    for object in objects {
        code = with_object(plan, object, shift, k, code)?;
    }
    Ok(code)
}

/// A declaration, of which `shift` loops stand before their own.
pub fn declared(plan: &Plan, declaration: &Declaration, shift: u32, k: u32) -> Result<Code, Memory>
    ensures { IfOk result (λ c. code_of c ≡ declared (plan_said plan.now) (declaration_of declaration.now) shift k) }
{
    match declaration {
        Declaration::Objects { objects, .. } => Ok(all_declared(plan, objects, shift, k)?),
        Declaration::Prototype { .. } => Ok(Code::new(plan.scope.alloc)),
    }
}

/// What stands first in the head of a `for`.
pub fn started(plan: &Plan, start: &ForStart, k: u32) -> Result<Code, Memory>
    ensures { IfOk result (λ c. code_of c ≡ started (plan_said plan.now) (start_of start.now) k) }
{
    match start {
        ForStart::Absent => Ok(Code::new(plan.scope.alloc)),
        ForStart::Expression(expr) => code(&plan.scope, Purpose::Effect, expr, k),
        ForStart::Declaration(declaration) => declared(plan, declaration, 1, k),
    }
}
