use super::expression::Expr;
use super::object::{Array, Base};

/// A statement.
#[derive(Drop)]
pub enum Statement {
    Set {
        variable: u32,
        value: Expr,
    },
    /// Writes a byte of the output.
    Put {
        value: Expr,
    },
    /// Reads a byte of the input, or -1 at its end.
    Get {
        into: u32,
    },
    /// Stores an element of an array.
    Keep {
        array: Array,
        index: Expr,
        value: Expr,
    },
    /// Counts how often it is passed.
    Mark {
        id: u32,
    },
    Seq(Vec<Statement>),
    If {
        test: Expr,
        first: Box<Statement>,
        other: Box<Statement>,
    },
    /// Starts its body again and again until a `Leave` or a `Return` leaves it, from `min` to `max`
    /// times.
    Loop {
        id: u32,
        min: u32,
        max: u32,
        body: Box<Statement>,
    },
    /// What a `Leave` within it goes behind.
    Block(Box<Statement>),
    /// Goes behind the block around it that has `depth` blocks within it around this statement.
    Leave {
        depth: u32,
    },
    Call {
        function: u32,
        values: Vec<Expr>,
        arrays: Vec<Base>,
        into: Option<u32>,
    },
    Return {
        value: Expr,
    },
}
