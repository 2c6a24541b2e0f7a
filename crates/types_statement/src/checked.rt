use c_tree::Pragma;
use types_rules::Fault;
use types_tree::expression::Expr;
use types_tree::statement::{ForStart, Item, Label, LoopId, Statement};
use types_value::Kind;

/// What a statement stands in.
#[derive(Clone, Copy)]
pub struct Within {
    /// The type of the function's result.
    pub result: Kind,
    pub in_loop: bool,
    /// Whether it stands in a loop or `switch`.
    pub has_exit: bool,
}

/// What was found in a statement.
#[derive(Drop)]
pub struct CheckedStatement {
    pub statement: Box<Statement>,
    /// The first fault in it.
    pub fault: Option<Fault>,
}

/// What was found in an item.
#[derive(Drop)]
pub struct CheckedItem {
    pub item: Item,
    pub fault: Option<Fault>,
}

/// What was found in items.
#[derive(Drop)]
pub struct CheckedItems {
    pub items: Vec<Item>,
    /// The first fault in them.
    pub fault: Option<Fault>,
}

/// What was found in a label.
#[derive(Drop)]
pub struct CheckedLabel {
    pub label: Label,
    pub fault: Option<Fault>,
}

/// What was found in an expression that may be missing.
#[derive(Drop)]
pub struct CheckedOption {
    pub value: Option<Expr>,
    pub void: bool,
    pub fault: Option<Fault>,
}

/// What was found in what stands first in the head of a `for`.
#[derive(Drop)]
pub struct CheckedStart {
    pub start: ForStart,
    pub fault: Option<Fault>,
}

/// What was found in a test.
#[derive(Drop)]
pub struct CheckedTest {
    pub test: Box<Expr>,
    /// What fails at the statement for it.
    pub own: Option<Fault>,
    pub fault: Option<Fault>,
}

/// What was found in the head of a `for`.
#[derive(Drop)]
pub struct CheckedHead {
    pub start: CheckedStart,
    pub test: CheckedOption,
    pub step: CheckedOption,
}

/// A loop that was counted: its number, its bound, and the place of its keyword.
#[derive(Drop)]
pub struct Begun {
    pub number: LoopId,
    pub bound: Option<Pragma>,
    pub at: u32,
}

/// A `while` that was counted, and its test.
#[derive(Drop)]
pub struct BegunWhile {
    pub begun: Begun,
    pub test: CheckedTest,
}

/// A `for` that was counted, and its head.
#[derive(Drop)]
pub struct BegunFor {
    pub begun: Begun,
    pub head: Box<CheckedHead>,
}

// What is found is let go here, once for each type.

impl CheckedStatement {
    pub fn let_go(self) {
        drop(self);
    }
}

impl CheckedTest {
    pub fn let_go(self) {
        drop(self);
    }
}

impl Begun {
    pub fn let_go(self) {
        drop(self);
    }
}

impl BegunWhile {
    pub fn let_go(self) {
        drop(self);
    }
}

impl BegunFor {
    pub fn let_go(self) {
        drop(self);
    }
}

impl Within {
    ghost use Rattle.std.specs.Prelude.{◌≡◌};
    ghost use Rattle.types_rules.specs.StatementRules.{in_function, in_loop, in_switch};
    ghost use Rattle.types_statement.specs.Within.{within_said};

    /// In a function with a result of this type.
    pub fn function(result_kind: Kind) -> Within
        ensures { within_said result ≡ in_function result_kind }
    {
        Within {
            result: result_kind,
            in_loop: false,
            has_exit: false,
        }
    }

    /// In a loop.
    pub fn in_loop(self) -> Within
        ensures { within_said result ≡ in_loop (within_said self) }
    {
        Within {
            result: self.result,
            in_loop: true,
            has_exit: true,
        }
    }

    /// In a `switch`.
    pub fn in_switch(self) -> Within
        ensures { within_said result ≡ in_switch (within_said self) }
    {
        Within {
            result: self.result,
            in_loop: self.in_loop,
            has_exit: true,
        }
    }
}
