// The walk over an expression.
ghost use Rattle.std.specs.Prelude.{◌≡◌, ◌+◌, ℕ, IfOk, zero};
ghost use Rattle.types_tree.specs.Tree as trees;
ghost use Rattle.types_tree.specs.Tree.{And, Assign, Conditional, Or, Update};
ghost use Rattle.types_tree.specs.View.{expr_of, exprs_of, place_of};
ghost use Rattle.make_expression.specs.Makes.{Makes, chosen_for, passing_of, way};
ghost use Rattle.make_pieces.specs.View.{aimed_of, code_of, valued_of};
ghost use Rattle.high_code.specs.Code.{alone, joined};
ghost use Rattle.high_ir.specs.Tree.{Block, Seq};
ghost use Rattle.high_ir.specs.View.{expr_of as value_of};
ghost use Rattle.plan_definition.specs.declared.purpose.Purpose.TheVariants.{Value, Unless};
ghost use Rattle.plan_definition.specs.Homes.{loaded};
ghost use Rattle.plan_definition.specs.Values.{aimed, argument, array_named, both, choice, is_joint, made, only_code, passing};

use super::assigning::{Change, assigned, updated};
use super::calling::called;
use super::choosing::{chosen, chosen_by_jumps, noted};
use super::joint::is_joint;
use super::operating::operate;
use super::passing::{Passing, array_named};
use super::purposes::{converted, for_operand, plain, signed_for};
use super::scope::Scope;
use super::stepping::{Step, stepped};
use high_ir::expression::Expr as Made;
use high_ir::expressions::let_go_expr;
use make_pieces::homes::{array_at, home_of, scalar_at};
use make_pieces::numbers::{offset, sum};
use make_pieces::{Aimed, Code, Target, Valued};
use plan_definition::Purpose;
use std::alloc::Global;
use types_tree::expression::{Expr, Place};
use wcc_base::Memory;

/// What a target holds.
fn loaded(alloc: Global, aimed: Aimed) -> Result<Valued, Memory>
    ensures { IfOk result (λ v. valued_of v ≡ record { code = (aimed_of aimed).code; value = loaded (aimed_of aimed).target }) }
{
    let Aimed { code, target } = aimed;
    match target.loaded(alloc) {
        Ok(value) => Ok(Valued { code, value }),
        Err(memory) => {
            code.let_go();
            Err(memory)
        }
    }
}

/// A value behind other code.
fn behind(code: Code, value: Valued) -> Result<Valued, Memory>
    ensures { IfOk result (λ v. valued_of v ≡ both (code_of code) (valued_of value)) }
{
    let Valued { code: after, value } = value;
    match code.joined(after) {
        Ok(code) => Ok(Valued { code, value }),
        Err(memory) => {
            let_go_expr(value);
            Err(memory)
        }
    }
}

/// Code in a block of its own, which leaves no value.
fn only_block(alloc: Global, code: Code) -> Result<Valued, Memory>
    ensures { IfOk result (λ v. valued_of v ≡ only_code (alone (Block (Seq (code_of code))))) }
{
    Ok(Valued::only_code(code.in_block(alloc)?))
}

/// The code of `?:`, and the value that it left in the temporary.
fn chosen_for(alloc: Global, purpose: Purpose, code: Code, k: u32) -> Result<Valued, Memory>
    ensures { IfOk result (λ v. valued_of v ≡ chosen_for purpose (code_of code) k) }
{
    let chosen = Valued {
        code,
        value: Made::Variable(k),
    };
    match purpose {
        Purpose::Effect => Ok(Valued::only_code(chosen.code())),
        Purpose::Value => Ok(chosen),
        Purpose::Unless { .. } => chosen.finished(alloc, purpose),
        Purpose::When { .. } => chosen.finished(alloc, purpose),
    }
}

/// An expression for a purpose. Its temporaries are the variables from `k` on.
#[cycle(expressions)]
fn made(scope: &Scope, purpose: Purpose, expr: &Expr, k: u32) -> Result<Valued, Memory>
    ensures { IfOk result (λ v. Makes purpose v (made scope.now.homes.now purpose (expr_of expr.now) k)) }
{
    let alloc = scope.alloc;
    match expr {
        Expr::Number { constant, .. } => {
            let word = Valued::known(alloc, constant.value);
            word.finished(alloc, purpose)
        }
        Expr::Character { value, .. } => {
            let word = Valued::known(alloc, u32::from(*value));
            word.finished(alloc, purpose)
        }
        Expr::Read(place) => {
            let aimed = aimed(scope, place, k)?;
            let held = loaded(alloc, aimed)?;
            held.finished(alloc, purpose)
        }
        Expr::Array { .. } => {
            let word = Valued::known(alloc, 0);
            word.finished(alloc, purpose)
        }
        Expr::Paren { inner, .. } => made(scope, purpose, inner, k),
        Expr::Call {
            callee,
            arguments,
            ..
        } => {
            let passing = passing(scope, arguments, k)?;
            let call = called(alloc, purpose, *callee, k, passing)?;
            call.finished(alloc, purpose)
        }
        Expr::Step {
            fix,
            operator,
            kind,
            target,
            ..
        } => {
            let step = Step {
                fix: *fix,
                operator: *operator,
                kind: *kind,
            };
            stepped_place(scope, purpose, step, target, k)
        }
        Expr::Sign {
            operator,
            operand,
            ..
        } => {
            let operand = made(scope, for_operand(*operator, purpose), operand, k)?;
            signed_for(alloc, *operator, purpose, operand)
        }
        Expr::Cast { to, operand, .. } => {
            let operand = made(scope, plain(purpose), operand, k)?;
            converted(alloc, *to, purpose, operand)
        }
        Expr::Convert { to, operand } => {
            let operand = made(scope, plain(purpose), operand, k)?;
            converted(alloc, *to, purpose, operand)
        }
        Expr::Operate {
            operator,
            kind,
            left,
            right,
            ..
        } => {
            let (left, right) = values(scope, left, right, k)?;
            let value = operate(alloc, *operator, *kind, k, left, right)?;
            value.finished(alloc, purpose)
        }
        Expr::And { left, right, .. } => conjunction(scope, purpose, left, right, k),
        Expr::Or { left, right, .. } => disjunction(scope, purpose, left, right, k),
        Expr::Comma { left, right, .. } => {
            let code = made(scope, Purpose::Effect, left, k)?.code();
            match made(scope, purpose, right, k) {
                Ok(value) => behind(code, value),
                Err(memory) => {
                    code.let_go();
                    Err(memory)
                }
            }
        }
        Expr::Conditional {
            test,
            then,
            otherwise,
            ..
        } => {
            let code = ways(scope, purpose, test, then, otherwise, k)?;
            chosen_for(alloc, purpose, code, k)
        }
        Expr::Assign { target, value, .. } => { assigned_place(scope, purpose, target, value, k) }
        Expr::Update {
            operator,
            kind,
            to,
            target,
            value,
            ..
        } => {
            let change = Change {
                operator: *operator,
                kind: *kind,
                to: *to,
            };
            updated_place(scope, purpose, change, target, value, k)
        }
    }
}

/// A step (C11 6.5.2.4, 6.5.3.1).
#[cycle(expressions)]
fn stepped_place(
    scope: &Scope,
    purpose: Purpose,
    step: Step,
    target: &Place,
    k: u32,
) -> Result<Valued, Memory>
    ensures { IfOk result (λ v. (at : ℕ) → Makes purpose v (made scope.now.homes.now purpose (trees.Step step.fix step.operator step.kind (place_of target.now) at) k)) }
{
    let aimed = aimed(scope, target, k)?;
    let stepped = stepped(scope.alloc, purpose, step, k, aimed)?;
    stepped.finished(scope.alloc, purpose)
}

/// An assignment (C11 6.5.16.1).
#[cycle(expressions)]
fn assigned_place(
    scope: &Scope,
    purpose: Purpose,
    target: &Place,
    value: &Expr,
    k: u32,
) -> Result<Valued, Memory>
    ensures { IfOk result (λ v. (at : ℕ) → Makes purpose v (made scope.now.homes.now purpose (Assign (place_of target.now) (expr_of value.now) at) k)) }
{
    let (aimed, right) = aimed_and_value(scope, target, value, k)?;
    let assigned = assigned(purpose, k, aimed, right)?;
    assigned.finished(scope.alloc, purpose)
}

/// A compound assignment (C11 6.5.16.2).
#[cycle(expressions)]
fn updated_place(
    scope: &Scope,
    purpose: Purpose,
    change: Change,
    target: &Place,
    value: &Expr,
    k: u32,
) -> Result<Valued, Memory>
    ensures { IfOk result (λ v. (at : ℕ) → Makes purpose v (made scope.now.homes.now purpose (Update change.operator change.kind change.to (place_of target.now) (expr_of value.now) at) k)) }
{
    let (aimed, right) = aimed_and_value(scope, target, value, k)?;
    let updated = updated(scope.alloc, purpose, change, k, aimed, right)?;
    updated.finished(scope.alloc, purpose)
}

/// The value of an expression.
#[cycle(expressions)]
pub fn value(scope: &Scope, expr: &Expr, k: u32) -> Result<Valued, Memory>
    ensures whole { IfOk result (λ v. valued_of v ≡ made scope.now.homes.now Value (expr_of expr.now) k) }
    ensures code { IfOk result (λ v. code_of v.code ≡ (made scope.now.homes.now Value (expr_of expr.now) k).code) }
    ensures value { IfOk result (λ v. value_of v.value ≡ (made scope.now.homes.now Value (expr_of expr.now) k).value) }
{
    made(scope, Purpose::Value, expr, k)
}

/// The code of an expression for a purpose.
#[cycle(expressions)]
pub fn code(scope: &Scope, purpose: Purpose, expr: &Expr, k: u32) -> Result<Code, Memory>
    ensures { IfOk result (λ c. code_of c ≡ (made scope.now.homes.now purpose (expr_of expr.now) k).code) }
{
    Ok(made(scope, purpose, expr, k)?.code())
}

/// What a place is.
#[cycle(expressions)]
fn aimed(scope: &Scope, place: &Place, k: u32) -> Result<Aimed, Memory>
    ensures { IfOk result (λ a. aimed_of a ≡ aimed scope.now.homes.now (place_of place.now) k) }
{
    match place {
        Place::Scalar { object, .. } => Ok(Aimed {
            code: Code::new(scope.alloc),
            target: scalar_at(home_of(scope.homes, object.0)),
        }),
        Place::Element { array, index, .. } => {
            let index = value(scope, index, k)?;
            Ok(Aimed {
                code: index.code,
                target: Target::InMemory {
                    array: array_at(home_of(scope.homes, array.0)),
                    index: index.value,
                },
            })
        }
        Place::Paren { inner, .. } => aimed(scope, inner, k),
    }
}

/// Two values, the second one with the temporaries behind k.
#[cycle(expressions)]
fn values(scope: &Scope, left: &Expr, right: &Expr, k: u32) -> Result<(Valued, Valued), Memory>
    ensures left { IfOk result (λ p. valued_of p.0 ≡ made scope.now.homes.now Value (expr_of left.now) k) }
    ensures right { IfOk result (λ p. valued_of p.1 ≡ made scope.now.homes.now Value (expr_of right.now) (k + 1)) }
{
    let next = sum(k, 1)?;
    let left = value(scope, left, k)?;
    match value(scope, right, next) {
        Ok(right) => Ok((left, right)),
        Err(memory) => {
            left.let_go();
            Err(memory)
        }
    }
}

/// A place, and a value with the temporaries behind k.
#[cycle(expressions)]
fn aimed_and_value(
    scope: &Scope,
    target: &Place,
    right: &Expr,
    k: u32,
) -> Result<(Aimed, Valued), Memory>
    ensures target { IfOk result (λ p. aimed_of p.0 ≡ aimed scope.now.homes.now (place_of target.now) k) }
    ensures right { IfOk result (λ p. valued_of p.1 ≡ made scope.now.homes.now Value (expr_of right.now) (k + 1)) }
{
    let next = sum(k, 1)?;
    let target = aimed(scope, target, k)?;
    match value(scope, right, next) {
        Ok(right) => Ok((target, right)),
        Err(memory) => {
            target.let_go();
            Err(memory)
        }
    }
}

/// The code of two expressions, one after the other.
#[cycle(expressions)]
fn in_turn(
    scope: &Scope,
    first: Purpose,
    left: &Expr,
    second: Purpose,
    right: &Expr,
    k: u32,
) -> Result<Code, Memory>
    ensures { IfOk result (λ c. code_of c ≡ joined (made scope.now.homes.now first (expr_of left.now) k).code (made scope.now.homes.now second (expr_of right.now) k).code) }
{
    let left = code(scope, first, left, k)?;
    match code(scope, second, right, k) {
        Ok(right) => left.joined(right),
        Err(memory) => {
            left.let_go();
            Err(memory)
        }
    }
}

/// `&&` (C11 6.5.13).
#[cycle(expressions)]
fn conjunction(
    scope: &Scope,
    purpose: Purpose,
    left: &Expr,
    right: &Expr,
    k: u32,
) -> Result<Valued, Memory>
    ensures { IfOk result (λ v. (at : ℕ) → valued_of v ≡ made scope.now.homes.now purpose (And (expr_of left.now) (expr_of right.now) at) k) }
{
    let alloc = scope.alloc;
    let out = Purpose::Unless { depth: 0 };
    match purpose {
        Purpose::Value => {
            let jumps = in_turn(scope, out, left, out, right, sum(k, 1)?)?;
            noted(alloc, k, 0, 1, jumps)
        }
        Purpose::Effect => {
            let code = in_turn(scope, out, left, purpose, right, k)?;
            only_block(alloc, code)
        }
        Purpose::Unless { .. } => {
            let code = in_turn(scope, purpose, left, purpose, right, k)?;
            Ok(Valued::only_code(code))
        }
        Purpose::When { depth } => {
            let depth = sum(depth, 1)?;
            let code = in_turn(scope, out, left, Purpose::When { depth }, right, k)?;
            only_block(alloc, code)
        }
    }
}

/// `||` (C11 6.5.14).
#[cycle(expressions)]
fn disjunction(
    scope: &Scope,
    purpose: Purpose,
    left: &Expr,
    right: &Expr,
    k: u32,
) -> Result<Valued, Memory>
    ensures { IfOk result (λ v. (at : ℕ) → valued_of v ≡ made scope.now.homes.now purpose (Or (expr_of left.now) (expr_of right.now) at) k) }
{
    let alloc = scope.alloc;
    let out = Purpose::When { depth: 0 };
    match purpose {
        Purpose::Value => {
            let jumps = in_turn(scope, out, left, out, right, sum(k, 1)?)?;
            noted(alloc, k, 1, 0, jumps)
        }
        Purpose::Effect => {
            let code = in_turn(scope, out, left, purpose, right, k)?;
            only_block(alloc, code)
        }
        Purpose::Unless { depth } => {
            let depth = sum(depth, 1)?;
            let code = in_turn(scope, out, left, Purpose::Unless { depth }, right, k)?;
            only_block(alloc, code)
        }
        Purpose::When { .. } => {
            let code = in_turn(scope, purpose, left, purpose, right, k)?;
            Ok(Valued::only_code(code))
        }
    }
}

/// One of the ways of a choice: its effects, or its value in the temporary.
#[cycle(expressions)]
fn way(scope: &Scope, purpose: Purpose, expr: &Expr, k: u32) -> Result<Code, Memory>
    ensures { IfOk result (λ c. code_of c ≡ way scope.now.homes.now purpose (expr_of expr.now) k) }
{
    match purpose {
        Purpose::Effect => code(scope, purpose, expr, k),
        Purpose::Value => value(scope, expr, k)?.placed(k),
        Purpose::Unless { .. } => value(scope, expr, k)?.placed(k),
        Purpose::When { .. } => value(scope, expr, k)?.placed(k),
    }
}

/// A choice between two pieces of code, by a test or by its jumps.
#[cycle(expressions)]
pub fn choose(scope: &Scope, test: &Expr, k: u32, first: Code, other: Code) -> Result<Code, Memory>
    ensures { IfOk result (λ c. code_of c ≡ choice (is_joint (expr_of test.now)) (made scope.now.homes.now Value (expr_of test.now) k) (made scope.now.homes.now (Unless zero) (expr_of test.now) k).code (code_of first) (code_of other)) }
{
    if is_joint(test) {
        return match code(scope, Purpose::Unless { depth: 0 }, test, k) {
            Ok(jumps) => chosen_by_jumps(scope.alloc, jumps, first, other),
            Err(memory) => {
                first.let_go();
                other.let_go();
                Err(memory)
            }
        };
    }
    match value(scope, test, k) {
        Ok(test) => chosen(scope.alloc, test, first, other),
        Err(memory) => {
            first.let_go();
            other.let_go();
            Err(memory)
        }
    }
}

/// The code of `?:`, whose value, where it has one, is left in the temporary.
#[cycle(expressions)]
fn ways(
    scope: &Scope,
    purpose: Purpose,
    test: &Expr,
    first: &Expr,
    second: &Expr,
    k: u32,
) -> Result<Code, Memory>
    ensures { IfOk result (λ c. code_of c ≡ choice (is_joint (expr_of test.now)) (made scope.now.homes.now Value (expr_of test.now) k) (made scope.now.homes.now (Unless zero) (expr_of test.now) k).code (way scope.now.homes.now purpose (expr_of first.now) k) (way scope.now.homes.now purpose (expr_of second.now) k)) }
{
    let first = way(scope, purpose, first, k)?;
    match way(scope, purpose, second, k) {
        Ok(other) => choose(scope, test, k, first, other),
        Err(memory) => {
            first.let_go();
            Err(memory)
        }
    }
}

/// What arguments leave for a call: the last one is made first, since its code may change what the earlier ones are.
#[cycle(expressions)]
fn passing(scope: &Scope, arguments: &[Expr], k: u32) -> Result<Passing, Memory>
    ensures { IfOk result (λ p. passing_of p ≡ passing scope.now.homes.now (exprs_of arguments.now) k) }
{
    let mut passed = Passing::new(scope.alloc);
    let mut i = arguments.len();
    while i > 0 {
        i -= 1;
        let at = offset(k, i)?;
        passed = passed_behind(scope, &arguments[i], at, passed)?;
    }
    Ok(passed)
}

/// The same behind one argument more.
#[cycle(expressions)]
fn passed_behind(scope: &Scope, given: &Expr, k: u32, passed: Passing) -> Result<Passing, Memory>
    ensures { IfOk result (λ p. passing_of p ≡ argument scope.now.homes.now (array_named (expr_of given.now)) k (made scope.now.homes.now Value (expr_of given.now) k) (passing_of passed)) }
{
    match value(scope, given, k) {
        Ok(value) => passed.behind(scope.homes, array_named(given), k, value),
        Err(memory) => {
            passed.let_go();
            Err(memory)
        }
    }
}
