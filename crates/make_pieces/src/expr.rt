// Leaves of expressions.
ghost use Rattle.std.specs.Prelude.{◌≡◌, IfNone, IfSome, false};
ghost use Rattle.high_ir.specs.Tree.{Binary, Element, Unary};
ghost use Rattle.high_ir.specs.View.{expr_of};
ghost use Rattle.make_pieces.specs.View.{leaf_expr};
ghost use Rattle.plan_definition.specs.Values.{is_leaf};

use high_ir::expression::Expr;

/// A constant or a variable: what is computed without an operator, and may stand twice.
#[derive(Clone, Copy)]
pub enum Leaf {
    Constant(u32),
    Variable(u32),
}

impl Leaf {
    pub fn expr(self) -> Expr
        ensures { expr_of result ≡ leaf_expr self }
    {
        match self {
            Leaf::Constant(word) => Expr::Constant(word),
            Leaf::Variable(x) => Expr::Variable(x),
        }
    }
}

/// The leaf that an expression is.
pub fn leaf_of(expr: &Expr) -> Option<Leaf>
    ensures some { IfSome result (λ l. leaf_expr l ≡ expr_of expr.now) }
    ensures none { IfNone result (is_leaf (expr_of expr.now) ≡ false) }
{
    match expr {
        Expr::Constant(word) => Some(Leaf::Constant(*word)),
        Expr::Variable(x) => Some(Leaf::Variable(*x)),
        Expr::Element { .. } => None,
        Expr::Unary { .. } => None,
        Expr::Binary { .. } => None,
    }
}
