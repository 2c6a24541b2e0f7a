// Registers that the accesses of a statement share.
ghost use Rattle.std.specs.Prelude.{◌≡◌, ◌==◌, ◌&&◌, ◌++◌, IfOk, map, option_map};
ghost use Rattle.high_ir.specs.Tree.{Element};
ghost use Rattle.high_ir.specs.View.{expr_of};
ghost use Rattle.lower_expression.specs.View.{code_of, scope_of, shares_of};
ghost use Rattle.low_ir.specs.View.{operand_of};
ghost use Rattle.lower_coder.specs.View.{coded_of};
ghost use Rattle.lower_definition.specs.Values.{index_register, is_constant, register_of, scaled_as, scaled_in, scaled_in_all, share_code, shared, shares_from, split_register, with_share};

use super::scope::{Scope, leaf, variable};
use high_ir::expression::{BinaryOperator, Expr};
use high_ir::object::Array;
use low_ir::Operand;
use lower_coder::Coder;
use lower_coder::numbers::offset;
use lower_coder::objects::scale_of;
use lower_coder::operators::operate;
use rv_core::Alu;
use wcc_base::Memory;

/// A register that holds a variable times 2^scale.
#[derive(Clone, Copy)]
pub struct Share {
    pub variable: u32,
    pub scale: u32,
    pub register: u32,
}

impl Share {
    fn is_of(self, variable: u32, scale: u32) -> bool
        ensures { result ≡ ((self.variable == variable) && (self.scale == scale)) }
    {
        if self.variable == variable {
            return self.scale == scale;
        }
        false
    }
}

/// The register that holds a variable times 2^scale.
pub fn shared(shares: &[Share], variable: u32, scale: u32) -> Option<u32>
    ensures { result ≡ shared (shares_of shares.now) variable scale }
{
    for share in shares {
        if share.is_of(variable, scale) {
            return Some(share.register);
        }
    }
    None
}

/// One share more, where there is none yet; their registers are those from `first` on.
fn note(shares: &mut Vec<Share>, first: u32, variable: u32, scale: u32) -> Result<(), Memory>
    ensures { IfOk result (λ _. shares_of shares.new.items ≡ with_share (shared (shares_of shares.old.items) variable scale) (record { variable = variable; scale = scale }) first (shares_of shares.old.items)) }
{
    match shared(shares, variable, scale) {
        Some(_) => Ok(()),
        None => {
            let register = offset(first, shares.len())?;
            shares.push(Share {
                variable,
                scale,
                register,
            })?;
            Ok(())
        }
    }
}

fn is_constant(operand: Option<Operand>) -> bool
    ensures { result ≡ is_constant (option_map operand_of operand) }
{
    match operand {
        None => false,
        Some(Operand::Constant(_)) => true,
        Some(Operand::Register(_)) => false,
    }
}

fn register_of(operand: Option<Operand>) -> Option<u32>
    ensures { result ≡ register_of (option_map operand_of operand) }
{
    match operand {
        None => None,
        Some(Operand::Constant(_)) => None,
        Some(Operand::Register(register)) => Some(register),
    }
}

/// The part of a sum or a difference that is scaled, where it is a variable and the other one a constant.
fn split_register(
    operator: BinaryOperator,
    left: Option<Operand>,
    right: Option<Operand>,
) -> Option<u32>
    ensures { result ≡ split_register operator (option_map operand_of left) (option_map operand_of right) }
{
    match operator {
        BinaryOperator::Add => {
            if is_constant(right) {
                return register_of(left);
            }
            if is_constant(left) {
                return register_of(right);
            }
            None
        }
        BinaryOperator::Subtract => {
            if is_constant(right) {
                return register_of(left);
            }
            None
        }
        BinaryOperator::Multiply => None,
        BinaryOperator::Divide => None,
        BinaryOperator::DivideUnsigned => None,
        BinaryOperator::Remainder => None,
        BinaryOperator::RemainderUnsigned => None,
        BinaryOperator::And => None,
        BinaryOperator::Or => None,
        BinaryOperator::Xor => None,
        BinaryOperator::ShiftLeft => None,
        BinaryOperator::ShiftRight => None,
        BinaryOperator::ShiftRightUnsigned => None,
        BinaryOperator::Equal => None,
        BinaryOperator::NotEqual => None,
        BinaryOperator::Less => None,
        BinaryOperator::LessUnsigned => None,
        BinaryOperator::AtLeast => None,
        BinaryOperator::AtLeastUnsigned => None,
    }
}

/// The part of an index that is scaled, where it is a variable.
fn index_register(scope: &Scope, index: &Expr) -> Option<u32>
    ensures { result ≡ index_register (scope_of scope.now) (expr_of index.now) }
{
    match index {
        Expr::Constant(_) => None,
        Expr::Variable(x) => register_of(Some(variable(scope, *x))),
        Expr::Element { .. } => None,
        Expr::Unary { .. } => None,
        Expr::Binary {
            operator,
            left,
            right,
        } => split_register(*operator, leaf(scope, left), leaf(scope, right)),
    }
}

/// The share of an index of elements of 2^scale bytes.
fn note_index(
    scope: &Scope,
    index: &Expr,
    scale: u32,
    first: u32,
    shares: &mut Vec<Share>,
) -> Result<(), Memory>
    ensures { IfOk result (λ _. shares_of shares.new.items ≡ shares_from first (shares_of shares.old.items) (scaled_as scale (index_register (scope_of scope.now) (expr_of index.now)))) }
{
    if scale == 0 {
        return Ok(());
    }
    match index_register(scope, index) {
        None => Ok(()),
        Some(x) => note(shares, first, x, scale),
    }
}

/// The shares of an element, behind others.
#[cycle(shares)]
pub fn shares_at(
    scope: &Scope,
    array: Array,
    index: &Expr,
    first: u32,
    shares: &mut Vec<Share>,
) -> Result<(), Memory>
    ensures { IfOk result (λ _. shares_of shares.new.items ≡ shares_from first (shares_of shares.old.items) (scaled_in (scope_of scope.now) (Element array (expr_of index.now)))) }
{
    note_index(scope, index, scale_of(array.kind), first, shares)?;
    shares_in(scope, index, first, shares)
}

/// The shares of an expression, behind others.
#[cycle(shares)]
#[tactic(auto, using(crate::proofs::Shares::shares_append))]
pub fn shares_in(
    scope: &Scope,
    expr: &Expr,
    first: u32,
    shares: &mut Vec<Share>,
) -> Result<(), Memory>
    ensures { IfOk result (λ _. shares_of shares.new.items ≡ shares_from first (shares_of shares.old.items) (scaled_in (scope_of scope.now) (expr_of expr.now))) }
{
    match expr {
        Expr::Constant(_) => Ok(()),
        Expr::Variable(_) => Ok(()),
        Expr::Element { array, index } => shares_at(scope, *array, index, first, shares),
        Expr::Unary { operand, .. } => shares_in(scope, operand, first, shares),
        Expr::Binary { left, right, .. } => {
            shares_in(scope, left, first, shares)?;
            shares_in(scope, right, first, shares)
        }
    }
}

/// The shares of several expressions, behind others.
pub fn shares_in_all(
    scope: &Scope,
    exprs: &[Expr],
    first: u32,
    shares: &mut Vec<Share>,
) -> Result<(), Memory>
    ensures { IfOk result (λ _. shares_of shares.new.items ≡ shares_from first (shares_of shares.old.items) (scaled_in_all (scope_of scope.now) (map expr_of exprs.now))) }
{
    for expr in exprs {
        shares_in(scope, expr, first, shares)?;
    }
    Ok(())
}

/// The instructions that fill the shared registers.
pub fn share_code(shares: &[Share], coder: &mut Coder) -> Result<(), Memory>
    ensures { IfOk result (λ _. coded_of coder.new ≡ record { code = code_of coder.old ++ share_code (shares_of shares.now); free = coder.old.free }) }
{
    for share in shares {
        coder.push(operate(
            Alu::ShiftLeft,
            share.register,
            Operand::Register(share.variable),
            Operand::Constant(share.scale),
        ))?;
    }
    Ok(())
}
