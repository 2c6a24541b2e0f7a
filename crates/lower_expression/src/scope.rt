// What a function's code goes by.
ghost use Rattle.std.specs.Prelude.{◌≡◌, option_map};
ghost use Rattle.high_ir.specs.View.{expr_of};
ghost use Rattle.lower_expression.specs.View.{scope_of};
ghost use Rattle.low_ir.specs.View.{operand_of};
ghost use Rattle.lower_definition.specs.Values.{leaf, variable};

use high_ir::expression::Expr;
use low_ir::Operand;
use std::alloc::Global;

/// What a function's code goes by.
#[derive(Clone, Copy)]
pub struct Scope<'a> {
    pub alloc: Global,
    /// How many variables the function has; they are its first registers.
    pub variables: u32,
    /// By array parameter: its claim, if a call passes an array for it.
    pub claims: &'a [Option<u32>],
    /// How many arrays the program has.
    pub objects: u32,
    /// The functions in the order of the low program.
    pub order: &'a [u32],
    /// Whether quotients may be several instructions.
    pub shifts: bool,
}

/// The register of a variable; no good run has one that isn't there.
pub fn variable(scope: &Scope, x: u32) -> Operand
    ensures { operand_of result ≡ variable (scope_of scope.now) x }
{
    if x < scope.variables {
        return Operand::Register(x);
    }
    Operand::Constant(0)
}

/// The operand that an expression is without an instruction.
pub fn leaf(scope: &Scope, expr: &Expr) -> Option<Operand>
    ensures { option_map operand_of result ≡ leaf (scope_of scope.now) (expr_of expr.now) }
{
    match expr {
        Expr::Constant(word) => Some(Operand::Constant(*word)),
        Expr::Variable(x) => Some(variable(scope, *x)),
        Expr::Element { .. } => None,
        Expr::Unary { .. } => None,
        Expr::Binary { .. } => None,
    }
}
