use c_tree::expression::{PostfixOperator, Specifier};
use c_tree::token::Constant;
use std::alloc::{AllocError, Global};
use types_value::{Kind, Operator, Sign};

/// The number of an object. Objects are numbered from 0 in the order of their declarations.
#[derive(Clone, Copy)]
pub struct ObjectId(pub u32);

/// The number of a function. Functions are numbered from 0 in the order of their definitions.
#[derive(Clone, Copy, Debug)]
pub struct FunctionId(pub u32);

/// Where a call goes.
#[derive(Clone, Copy)]
pub enum Callee {
    Getchar,
    Putchar,
    Function(FunctionId),
}

/// Whether a step's value is that before it or behind it.
#[derive(Clone, Copy)]
pub enum Fix {
    Prefix,
    Postfix,
}

/// What is read, assigned or stepped. Each keeps the place of its first token in the source.
#[cycle(exprs)]
#[derive(Drop)]
pub enum Place {
    Scalar {
        object: ObjectId,
        at: u32,
    },
    Element {
        array: ObjectId,
        index: Box<Expr>,
        at: u32,
    },
    Paren {
        inner: Box<Place>,
        at: u32,
    },
}

/// An expression. Each keeps the place of its first token in the source.
#[cycle(exprs)]
#[derive(Drop)]
pub enum Expr {
    Number {
        constant: Constant,
        at: u32,
    },
    Character {
        value: u8,
        at: u32,
    },
    /// What a scalar object or an element holds.
    Read(Place),
    /// An array as it is handed to an array parameter.
    Array {
        object: ObjectId,
        at: u32,
    },
    Paren {
        inner: Box<Expr>,
        at: u32,
    },
    /// A call, with its arguments converted to the types of the parameters.
    Call {
        callee: Callee,
        arguments: Vec<Expr>,
        at: u32,
    },
    /// `++` or `--` on a place of this type.
    Step {
        fix: Fix,
        operator: PostfixOperator,
        kind: Kind,
        target: Box<Place>,
        at: u32,
    },
    /// An operator on an operand that was converted to this type.
    Sign {
        operator: Sign,
        kind: Kind,
        operand: Box<Expr>,
        at: u32,
    },
    /// A conversion that the source writes.
    Cast {
        specifiers: Vec<Specifier>,
        to: Kind,
        operand: Box<Expr>,
        at: u32,
    },
    /// A conversion that C implies. It is no node of the source.
    Convert {
        to: Kind,
        operand: Box<Expr>,
    },
    /// An operator on operands that were converted to this type, those of a shift each to its own.
    Operate {
        operator: Operator,
        kind: Kind,
        left: Box<Expr>,
        right: Box<Expr>,
        at: u32,
    },
    And {
        left: Box<Expr>,
        right: Box<Expr>,
        at: u32,
    },
    Or {
        left: Box<Expr>,
        right: Box<Expr>,
        at: u32,
    },
    Comma {
        left: Box<Expr>,
        right: Box<Expr>,
        at: u32,
    },
    Conditional {
        test: Box<Expr>,
        then: Box<Expr>,
        otherwise: Box<Expr>,
        at: u32,
    },
    /// An assignment of a value that was converted to the type of the place.
    Assign {
        target: Box<Place>,
        value: Box<Expr>,
        at: u32,
    },
    /// A compound assignment, computed at `kind` and converted to the type of the place.
    Update {
        operator: Operator,
        kind: Kind,
        to: Kind,
        target: Box<Place>,
        value: Box<Expr>,
        at: u32,
    },
}

impl Place {
    ghost use Rattle.std.specs.Prelude.{◌≡◌, IfOk};

    pub fn boxed(self, alloc: Global) -> Result<Box<Place>, AllocError>
        ensures { IfOk result (λ b. b.value ≡ self) }
    {
        Ok(Box::new(alloc, self)?)
    }
}

impl Expr {
    ghost use Rattle.std.specs.Prelude.{◌≡◌, IfOk};
    ghost use Rattle.types_tree.specs.Tree.{Call};
    ghost use Rattle.types_tree.specs.View.{expr_of, exprs_of};

    /// A call with these arguments.
    pub fn call(callee: Callee, arguments: Vec<Expr>, at: u32) -> Expr
        ensures { expr_of result ≡ Call callee (exprs_of arguments.items) at }
    {
        Expr::Call {
            callee,
            arguments,
            at,
        }
    }

    pub fn boxed(self, alloc: Global) -> Result<Box<Expr>, AllocError>
        ensures { IfOk result (λ b. b.value ≡ self) }
    {
        Ok(Box::new(alloc, self)?)
    }
}
