use super::declaration::Declaration;
use super::expression::Expr;
use c_tree::Pragma;

/// The number of a loop. Loops are numbered from 1 in the order of their keywords; a local list that leaves
/// elements over is one of them, at the place of its object's name.
#[derive(Clone, Copy)]
pub struct LoopId(pub u32);

/// The number of a marker. Markers are numbered from 0 in source order.
#[derive(Clone, Copy)]
pub struct MarkerId(pub u32);

/// A label of a `switch`, with the word that the switch's value is compared with.
#[derive(Drop)]
pub enum Label {
    Case { value: Expr, word: u32, at: u32 },
    Default { at: u32 },
}

/// What stands first in the head of a `for`.
#[derive(Drop)]
pub enum ForStart {
    Absent,
    Expression(Expr),
    Declaration(Declaration),
}

/// What stands in the braces of a block or a `switch`.
#[cycle(statements)]
#[derive(Drop)]
pub enum Item {
    Declaration(Declaration),
    Statement(Statement),
    Restriction(Pragma),
    Label(Label),
}

/// A statement, at the place of its first token, a loop at that of its keyword.
#[cycle(statements)]
#[derive(Drop)]
pub enum Statement {
    Block {
        items: Vec<Item>,
        at: u32,
    },
    Empty {
        at: u32,
    },
    Evaluate {
        value: Expr,
        at: u32,
    },
    Marker {
        number: MarkerId,
        pragma: Pragma,
    },
    If {
        test: Expr,
        then: Box<Statement>,
        at: u32,
    },
    IfElse {
        test: Expr,
        then: Box<Statement>,
        otherwise: Box<Statement>,
        at: u32,
    },
    While {
        number: LoopId,
        bound: Option<Pragma>,
        test: Expr,
        body: Box<Statement>,
        at: u32,
    },
    Do {
        number: LoopId,
        bound: Option<Pragma>,
        body: Box<Statement>,
        test: Expr,
        at: u32,
    },
    For {
        number: LoopId,
        bound: Option<Pragma>,
        start: ForStart,
        test: Option<Expr>,
        step: Option<Expr>,
        body: Box<Statement>,
        at: u32,
    },
    /// A choice by a value that was promoted.
    Switch {
        test: Expr,
        items: Vec<Item>,
        at: u32,
    },
    Break {
        at: u32,
    },
    Continue {
        at: u32,
    },
    /// An end of the function, with its value converted to the result's type.
    Return {
        value: Option<Expr>,
        at: u32,
    },
}

impl Statement {
    ghost use Rattle.std.specs.Prelude.{◌≡◌};
    ghost use Rattle.types_tree.specs.Tree.{Block, Switch};
    ghost use Rattle.types_tree.specs.View.{expr_of, items_of, statement_of};

    /// A block of these items.
    pub fn block(items: Vec<Item>, at: u32) -> Statement
        ensures { statement_of result ≡ Block (items_of items.items) at }
    {
        Statement::Block { items, at }
    }

    /// A choice among these items.
    pub fn switch(test: Expr, items: Vec<Item>, at: u32) -> Statement
        ensures { statement_of result ≡ Switch (expr_of test) (items_of items.items) at }
    {
        Statement::Switch { test, items, at }
    }
}
