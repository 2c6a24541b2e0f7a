use super::token::Constant;

/// The number of a name in the list of names that the unit keeps.
#[derive(Clone, Copy)]
pub struct NameId(pub u32);

/// A word of a type or a storage class (C11 6.7.1 to 6.7.4).
#[derive(Clone, Copy)]
pub enum Specifier {
    Static,
    Extern,
    Inline,
    Const,
    Void,
    Char,
    Short,
    Int,
    Long,
    Signed,
    Unsigned,
}

/// `++` or `--` behind its operand (C11 6.5.2.4).
#[derive(Clone, Copy)]
pub enum PostfixOperator {
    Increment,
    Decrement,
}

/// An operator before its operand (C11 6.5.3).
#[derive(Clone, Copy)]
pub enum PrefixOperator {
    Increment,
    Decrement,
    Negate,
    Plus,
    Complement,
    Not,
}

/// An operator between two operands that groups to the left (C11 6.5.5 to 6.5.14, 6.5.17).
#[derive(Clone, Copy)]
pub enum BinaryOperator {
    Multiply,
    Divide,
    Remainder,
    Add,
    Subtract,
    ShiftLeft,
    ShiftRight,
    Less,
    Greater,
    LessEqual,
    GreaterEqual,
    Equal,
    NotEqual,
    BitAnd,
    BitXor,
    BitOr,
    And,
    Or,
    Comma,
}

/// An assignment (C11 6.5.16).
#[derive(Clone, Copy)]
pub enum AssignOperator {
    Assign,
    Multiply,
    Divide,
    Remainder,
    Add,
    Subtract,
    ShiftLeft,
    ShiftRight,
    BitAnd,
    BitXor,
    BitOr,
}

/// An expression (C11 6.5). Each keeps the place of its first token in the source.
#[derive(Drop)]
pub enum Expr {
    Number {
        constant: Constant,
        at: u32,
    },
    Character {
        value: u8,
        at: u32,
    },
    Name {
        name: NameId,
        at: u32,
    },
    Paren {
        inner: Box<Expr>,
        at: u32,
    },
    Index {
        array: NameId,
        index: Box<Expr>,
        at: u32,
    },
    Call {
        function: NameId,
        arguments: Vec<Expr>,
        at: u32,
    },
    Postfix {
        operator: PostfixOperator,
        operand: Box<Expr>,
        at: u32,
    },
    Prefix {
        operator: PrefixOperator,
        operand: Box<Expr>,
        at: u32,
    },
    Cast {
        specifiers: Vec<Specifier>,
        operand: Box<Expr>,
        at: u32,
    },
    Binary {
        operator: BinaryOperator,
        left: Box<Expr>,
        right: Box<Expr>,
        at: u32,
    },
    Conditional {
        test: Box<Expr>,
        then: Box<Expr>,
        otherwise: Box<Expr>,
        at: u32,
    },
    Assign {
        operator: AssignOperator,
        target: Box<Expr>,
        value: Box<Expr>,
        at: u32,
    },
}

impl Expr {
    ghost use Rattle.std.specs.Prelude.{◌≡◌};
    ghost use Rattle.c_tree.specs.Formed.{place};
    ghost use Rattle.c_tree.specs.Tree.{Call, NoExpr};
    ghost use Rattle.c_tree.specs.View.{expr_of, exprs_of};

    /// A call with these arguments.
    pub fn call(function: NameId, arguments: Vec<Expr>, at: u32) -> Expr
        ensures { expr_of result ≡ Call function.0 (exprs_of NoExpr arguments.items) at }
    {
        Expr::Call {
            function,
            arguments,
            at,
        }
    }

    /// The place of an expression: that of its first token.
    pub fn place(&self) -> u32
        ensures { result ≡ place (expr_of self.now) }
    {
        match self {
            Expr::Number { at, .. } => *at,
            Expr::Character { at, .. } => *at,
            Expr::Name { at, .. } => *at,
            Expr::Paren { at, .. } => *at,
            Expr::Index { at, .. } => *at,
            Expr::Call { at, .. } => *at,
            Expr::Postfix { at, .. } => *at,
            Expr::Prefix { at, .. } => *at,
            Expr::Cast { at, .. } => *at,
            Expr::Binary { at, .. } => *at,
            Expr::Conditional { at, .. } => *at,
            Expr::Assign { at, .. } => *at,
        }
    }
}
