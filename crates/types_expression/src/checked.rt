use types_rules::Fault;
use types_tree::expression::Expr;
use types_value::Kind;

/// A typed expression and its type.
#[derive(Drop)]
pub struct Value {
    pub expr: Box<Expr>,
    pub kind: Kind,
}

/// What was found in an expression.
#[derive(Drop)]
pub struct Checked {
    pub value: Value,
    /// The first fault in it.
    pub fault: Option<Fault>,
}

/// What was found in the arguments of a call.
#[derive(Drop)]
pub struct CheckedArguments {
    pub exprs: Vec<Expr>,
    /// Whether one of them is void.
    pub void: bool,
    /// Whether each fits its parameter.
    pub fit: bool,
    /// The first fault in them.
    pub fault: Option<Fault>,
}

impl Checked {
    ghost use Rattle.std.specs.Prelude.{◌≡◌};

    pub fn new(expr: Box<Expr>, kind: Kind, fault: Option<Fault>) -> Checked
        ensures expr { result.value.expr ≡ expr }
        ensures kind { result.value.kind ≡ kind }
        ensures fault { result.fault ≡ fault }
    {
        Checked {
            value: Value { expr, kind },
            fault,
        }
    }
}
