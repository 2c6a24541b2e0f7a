use super::declaration::Declaration;
use super::expression::Expr;
use super::pragma::Pragma;

/// A label of a `switch` (C11 6.8.1).
#[derive(Drop)]
pub enum Label {
    Case { value: Expr, at: u32 },
    Default { at: u32 },
}

/// What stands first in the head of a `for`.
#[derive(Drop)]
pub enum ForStart {
    Absent,
    Expression(Expr),
    Declaration(Declaration),
}

/// The head of a `for`.
#[derive(Drop)]
pub struct ForHead {
    pub start: ForStart,
    pub test: Option<Expr>,
    pub step: Option<Expr>,
}

/// What stands in the braces of a block or a `switch`. A label stands in those of a `switch` alone.
#[cycle(statements)]
#[derive(Drop)]
pub enum Item {
    Declaration(Declaration),
    Statement(Statement),
    /// A pragma that restricts the counts of a whole run.
    Restriction(Pragma),
    Label(Label),
}

/// A statement (C11 6.8), at the place of its first token, a loop at that of its keyword.
#[cycle(statements)]
#[derive(Drop)]
pub enum Statement {
    Block {
        items: Vec<Item>,
        at: u32,
    },
    Empty {
        at: u32,
    },
    Expression {
        value: Expr,
        at: u32,
    },
    /// A pragma that counts how often it is reached.
    Marker(Pragma),
    If {
        test: Expr,
        then: Box<Statement>,
        at: u32,
    },
    IfElse {
        test: Expr,
        then: Box<Statement>,
        otherwise: Box<Statement>,
        at: u32,
    },
    While {
        bound: Option<Pragma>,
        test: Expr,
        body: Box<Statement>,
        at: u32,
    },
    Do {
        bound: Option<Pragma>,
        body: Box<Statement>,
        test: Expr,
        at: u32,
    },
    For {
        bound: Option<Pragma>,
        head: Box<ForHead>,
        body: Box<Statement>,
        at: u32,
    },
    Switch {
        test: Expr,
        items: Vec<Item>,
        at: u32,
    },
    Break {
        at: u32,
    },
    Continue {
        at: u32,
    },
    Return {
        value: Option<Expr>,
        at: u32,
    },
}

impl Statement {
    ghost use Rattle.std.specs.Prelude.{◌≡◌};
    ghost use Rattle.c_tree.specs.Tree.{Block, NoItem, Switch};
    ghost use Rattle.c_tree.specs.View.{expr_of, items_of, statement_of};

    /// A block of these items.
    pub fn block(items: Vec<Item>, at: u32) -> Statement
        ensures { statement_of result ≡ Block (items_of NoItem items.items) at }
    {
        Statement::Block { items, at }
    }

    /// A choice among these items.
    pub fn switch(test: Expr, items: Vec<Item>, at: u32) -> Statement
        ensures { statement_of result ≡ Switch (expr_of test) (items_of NoItem items.items) at }
    {
        Statement::Switch { test, items, at }
    }
}
