// How large statements are.
ghost use Rattle.std.specs.Prelude.{◌≡◌, IfOk, map};
ghost use Rattle.high_ir.specs.View.{expr_of, statement_of, statements_of};
ghost use Rattle.inliner.specs.Measures.{arrays_measure, beside, expr_measure, measure, measured, measured_all, no_part, passed_measure, return_measure, values_measure, within};

use high_ir::expression::Expr;
use high_ir::object::Base;
use high_ir::statement::Statement;
use high_renumber::numbers::{offset, sum};
use wcc_base::Memory;

/// The numbers that the budgets and the limit go by.
#[derive(Clone, Copy)]
pub struct Measure {
    pub nodes: u32,
    pub operations: u32,
    pub depth: u32,
}

/// How returns are counted: as they stand, or as what they become in the place of a call, where the value is written to a
/// variable or isn't asked for.
#[derive(Clone, Copy)]
pub enum Returns {
    Kept,
    Written,
    Dropped,
}

impl Measure {
    /// Of no parts.
    pub fn none() -> Measure
        ensures { result ≡ no_part }
    {
        Measure {
            nodes: 0,
            operations: 0,
            depth: 0,
        }
    }

    /// Of two parts.
    pub fn beside(self, other: Measure) -> Result<Measure, Memory>
        ensures { IfOk result (λ m. m ≡ beside self other) }
    {
        Ok(Measure {
            nodes: sum(self.nodes, other.nodes)?,
            operations: sum(self.operations, other.operations)?,
            depth: self.depth.max(other.depth),
        })
    }

    /// Of what has these parts.
    pub fn within(self) -> Result<Measure, Memory>
        ensures { IfOk result (λ m. m ≡ within self) }
    {
        Ok(Measure {
            nodes: sum(self.nodes, 1)?,
            operations: sum(self.operations, 1)?,
            depth: sum(self.depth, 1)?,
        })
    }
}

fn expr_measure(expr: &Expr) -> Result<Measure, Memory>
    ensures { IfOk result (λ m. m ≡ expr_measure (expr_of expr.now)) }
{
    match expr {
        Expr::Constant(_) => Ok(leaf()),
        Expr::Variable(_) => Ok(leaf()),
        Expr::Element { index, .. } => {
            let index = expr_measure(index)?;
            index.within()
        }
        Expr::Unary { operand, .. } => {
            let operand = expr_measure(operand)?;
            operand.within()
        }
        Expr::Binary { left, right, .. } => {
            let left = expr_measure(left)?;
            let right = expr_measure(right)?;
            left.beside(right)?.within()
        }
    }
}

/// A constant or a variable is no operation.
fn leaf() -> Measure
    ensures { result ≡ measure 1 0 1 }
{
    Measure {
        nodes: 1,
        operations: 0,
        depth: 1,
    }
}

/// The values of a call; one that is passed is an operation more.
pub fn values_measure(values: &[Expr]) -> Result<Measure, Memory>
    ensures { IfOk result (λ m. m ≡ values_measure (map expr_of values.now)) }
{
    let mut all = Measure::none();
    for value in values {
        all = and_value(all, value)?;
    }
    Ok(all)
}

fn and_value(all: Measure, value: &Expr) -> Result<Measure, Memory>
    ensures { IfOk result (λ m. m ≡ beside all (passed_measure (expr_of value.now))) }
{
    let value = expr_measure(value)?;
    let passed = Measure {
        nodes: value.nodes,
        operations: sum(value.operations, 1)?,
        depth: value.depth,
    };
    all.beside(passed)
}

/// The arrays of a call.
#[tactic(auto, using(crate::proofs::Walks::greatest_ones))]
fn arrays_measure(arrays: &[Base]) -> Result<Measure, Memory>
    ensures { IfOk result (λ m. m ≡ arrays_measure arrays.now) }
{
    let count = offset(0, arrays.len())?;
    Ok(Measure {
        nodes: count,
        operations: count,
        depth: count.min(1),
    })
}

fn return_measure(returns: Returns, value: &Expr) -> Result<Measure, Memory>
    ensures { IfOk result (λ m. m ≡ return_measure returns (expr_of value.now)) }
{
    match returns {
        Returns::Kept => expr_measure(value)?.within(),
        Returns::Written => {
            let written = expr_measure(value)?.within()?;
            let left = Measure::none().within()?;
            written.beside(left)?.within()
        }
        Returns::Dropped => Measure::none().within(),
    }
}

/// How large a statement is, with its returns counted so.
#[cycle(statements)]
pub fn measured(returns: Returns, statement: &Statement) -> Result<Measure, Memory>
    ensures { IfOk result (λ m. m ≡ measured returns (statement_of statement.now)) }
{
    match statement {
        Statement::Set { value, .. } => expr_measure(value)?.within(),
        Statement::Put { value } => expr_measure(value)?.within(),
        Statement::Get { .. } => Measure::none().within(),
        Statement::Keep { index, value, .. } => {
            let index = expr_measure(index)?;
            let value = expr_measure(value)?;
            index.beside(value)?.within()
        }
        Statement::Mark { .. } => Measure::none().within(),
        Statement::Seq(parts) => {
            let parts = measured_all(returns, parts)?;
            parts.within()
        }
        Statement::If { test, first, other } => {
            let first = measured(returns, first)?;
            let other = measured(returns, other)?;
            let test = expr_measure(test)?;
            test.beside(first.beside(other)?)?.within()
        }
        Statement::Loop { body, .. } => {
            let body = measured(returns, body)?;
            body.within()
        }
        Statement::Block(body) => {
            let body = measured(returns, body)?;
            body.within()
        }
        Statement::Leave { .. } => Measure::none().within(),
        Statement::Call { values, arrays, .. } => {
            let values = values_measure(values)?;
            let arrays = arrays_measure(arrays)?;
            values.beside(arrays)?.within()
        }
        Statement::Return { value } => return_measure(returns, value),
    }
}

#[cycle(statements)]
fn measured_all(returns: Returns, parts: &[Statement]) -> Result<Measure, Memory>
    ensures { IfOk result (λ m. m ≡ measured_all returns (statements_of parts.now)) }
{
    let mut all = Measure::none();
    for part in parts {
        all = all.beside(measured(returns, part)?)?;
    }
    Ok(all)
}
