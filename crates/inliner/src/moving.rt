// The body of a function in the frame of another function.
ghost use Rattle.std.specs.Prelude.{◌≡◌, ℕ, IfOk, map};
ghost use Rattle.high_ir.specs.Tree.{Call, End, If, Keep, Leave, Seq, Set, Then};
ghost use Rattle.high_ir.specs.View.{expr_of, statement_of, statements_of};
ghost use Rattle.inliner.specs.Moving.{ended, moved, moved_all, moved_array, moved_base, moved_expr, moved_into};
ghost use Rattle.inliner.specs.View.{place_of};

use high_ir::expression::Expr;
use high_ir::expressions::{binary, element, let_go_expr, unary};
use high_ir::object::{Array, Base};
use high_ir::statement::Statement;
use high_ir::statements::{block, choice, let_go, loop_of};
use high_renumber::numbers::sum;
use std::alloc::Global;
use wcc_base::Memory;

/// Where a body is put: its variables stand from `base` on, its array parameters are the arrays that the call passes, and
/// its value goes where the call asks for it.
#[derive(Clone, Copy)]
pub struct Place<'a> {
    pub alloc: Global,
    pub base: u32,
    pub arrays: &'a [Base],
    pub into: Option<u32>,
}

fn moved_base(place: &Place, base: Base) -> Base
    ensures { result ≡ moved_base place.now.arrays.now base }
{
    match base {
        Base::Object(_) => base,
        Base::Parameter(n) => place.arrays.get(n as usize).copied().unwrap_or(base),
    }
}

fn moved_array(place: &Place, array: Array) -> Array
    ensures { result ≡ moved_array place.now.arrays.now array }
{
    Array {
        kind: array.kind,
        base: moved_base(place, array.base),
    }
}

fn moved_into(place: &Place, into: Option<u32>) -> Result<Option<u32>, Memory>
    ensures { IfOk result (λ o. o ≡ moved_into place.now.base into) }
{
    match into {
        None => Ok(None),
        Some(x) => Ok(Some(sum(place.base, x)?)),
    }
}

fn moved_bases(place: &Place, arrays: &[Base]) -> Result<Vec<Base>, Memory>
    ensures { IfOk result (λ v. v.items ≡ map (moved_base place.now.arrays.now) arrays.now) }
{
    let mut moved = Vec::new(place.alloc);
    for base in arrays {
        moved.push(moved_base(place, *base))?;
    }
    Ok(moved)
}

fn moved_expr(place: &Place, expr: &Expr) -> Result<Expr, Memory>
    ensures { IfOk result (λ e. expr_of e ≡ moved_expr (place_of place.now) (expr_of expr.now)) }
{
    let alloc = place.alloc;
    match expr {
        Expr::Constant(word) => Ok(Expr::Constant(*word)),
        Expr::Variable(x) => Ok(Expr::Variable(sum(place.base, *x)?)),
        Expr::Element { array, index } => {
            let index = moved_expr(place, index)?;
            element(alloc, moved_array(place, *array), index)
        }
        Expr::Unary { operator, operand } => {
            let operand = moved_expr(place, operand)?;
            unary(alloc, *operator, operand)
        }
        Expr::Binary {
            operator,
            left,
            right,
        } => {
            let left = moved_expr(place, left)?;
            match moved_expr(place, right) {
                Ok(right) => binary(alloc, *operator, left, right),
                Err(memory) => {
                    let_go_expr(left);
                    Err(memory)
                }
            }
        }
    }
}

fn moved_exprs(place: &Place, exprs: &[Expr]) -> Result<Vec<Expr>, Memory>
    ensures { IfOk result (λ v. map expr_of v.items ≡ map (moved_expr (place_of place.now)) (map expr_of exprs.now)) }
{
    let mut moved = Vec::new(place.alloc);
    for expr in exprs {
        moved.push(moved_expr(place, expr)?)?;
    }
    Ok(moved)
}

fn moved_keep(place: &Place, array: Array, index: &Expr, value: &Expr) -> Result<Statement, Memory>
    ensures { IfOk result (λ s. (depth : ℕ) → statement_of s ≡ moved (place_of place.now) depth (Keep array (expr_of index.now) (expr_of value.now))) }
{
    let index = moved_expr(place, index)?;
    match moved_expr(place, value) {
        Ok(value) => Ok(Statement::Keep {
            array: moved_array(place, array),
            index,
            value,
        }),
        Err(memory) => {
            let_go_expr(index);
            Err(memory)
        }
    }
}

fn moved_call(
    place: &Place,
    function: u32,
    values: &[Expr],
    arrays: &[Base],
    into: Option<u32>,
) -> Result<Statement, Memory>
    ensures { IfOk result (λ s. (depth : ℕ) → statement_of s ≡ moved (place_of place.now) depth (Call function (map expr_of values.now) arrays.now into)) }
{
    let into = moved_into(place, into)?;
    let arrays = moved_bases(place, arrays)?;
    Ok(Statement::Call {
        function,
        values: moved_exprs(place, values)?,
        arrays,
        into,
    })
}

/// Writes a value to a variable, and leaves so many blocks and one more.
fn left_with(alloc: Global, variable: u32, value: Expr, depth: u32) -> Result<Statement, Memory>
    ensures { IfOk result (λ s. statement_of s ≡ Seq (Then (Set variable (expr_of value)) (Then (Leave depth) End))) }
{
    let mut parts = Vec::new(alloc);
    parts.push(Statement::Set { variable, value })?;
    parts.push(Statement::Leave { depth })?;
    Ok(Statement::Seq(parts))
}

/// What a return becomes that so many blocks of the body stand around.
fn ended(place: &Place, depth: u32, value: &Expr) -> Result<Statement, Memory>
    ensures { IfOk result (λ s. statement_of s ≡ ended place.now.into depth (moved_expr (place_of place.now) (expr_of value.now))) }
{
    match place.into {
        None => Ok(Statement::Leave { depth }),
        Some(variable) => {
            let value = moved_expr(place, value)?;
            left_with(place.alloc, variable, value, depth)
        }
    }
}

/// A statement of the body that so many of its blocks stand around.
#[cycle(statements)]
pub fn moved(place: &Place, depth: u32, statement: &Statement) -> Result<Statement, Memory>
    ensures { IfOk result (λ s. statement_of s ≡ moved (place_of place.now) depth (statement_of statement.now)) }
{
    let alloc = place.alloc;
    match statement {
        Statement::Set { variable, value } => {
            let variable = sum(place.base, *variable)?;
            let value = moved_expr(place, value)?;
            Ok(Statement::Set { variable, value })
        }
        Statement::Put { value } => {
            let value = moved_expr(place, value)?;
            Ok(Statement::Put { value })
        }
        Statement::Get { into } => {
            let into = sum(place.base, *into)?;
            Ok(Statement::Get { into })
        }
        Statement::Keep {
            array,
            index,
            value,
        } => moved_keep(place, *array, index, value),
        Statement::Mark { id } => Ok(Statement::Mark { id: *id }),
        Statement::Seq(parts) => {
            let made = moved_all(place, depth, parts)?;
            Ok(Statement::Seq(made))
        }
        Statement::If { test, first, other } => {
            let first = moved(place, depth, first)?;
            moved_if(place, depth, test, first, other)
        }
        Statement::Loop { id, min, max, body } => {
            let body = moved(place, depth, body)?;
            loop_of(alloc, *id, *min, *max, body)
        }
        Statement::Block(body) => {
            let body = moved(place, sum(depth, 1)?, body)?;
            block(alloc, body)
        }
        Statement::Leave { depth } => Ok(Statement::Leave { depth: *depth }),
        Statement::Call {
            function,
            values,
            arrays,
            into,
        } => moved_call(place, *function, values, arrays, *into),
        Statement::Return { value } => ended(place, depth, value),
    }
}

/// A choice whose first way is moved.
#[cycle(statements)]
fn moved_if(
    place: &Place,
    depth: u32,
    test: &Expr,
    first: Statement,
    other: &Statement,
) -> Result<Statement, Memory>
    ensures { IfOk result (λ s. statement_of s ≡ If (moved_expr (place_of place.now) (expr_of test.now)) (statement_of first) (moved (place_of place.now) depth (statement_of other.now))) }
{
    match moved(place, depth, other) {
        Ok(other) => match moved_expr(place, test) {
            Ok(test) => choice(place.alloc, test, first, other),
            Err(memory) => {
                let_go(first);
                let_go(other);
                Err(memory)
            }
        },
        Err(memory) => {
            let_go(first);
            Err(memory)
        }
    }
}

#[cycle(statements)]
fn moved_all(place: &Place, depth: u32, parts: &[Statement]) -> Result<Vec<Statement>, Memory>
    ensures { IfOk result (λ v. statements_of v.items ≡ moved_all (place_of place.now) depth (statements_of parts.now)) }
{
    let mut made = Vec::new(place.alloc);
    for part in parts {
        made.push(moved(place, depth, part)?)?;
    }
    Ok(made)
}
