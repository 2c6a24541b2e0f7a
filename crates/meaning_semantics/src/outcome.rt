// How parts of a run end, and what they find.
ghost use Rattle.std.specs.Prelude.{◌≡◌};
ghost use Rattle.meaning_semantics.specs.State.{at_place, rule_of};

use types_value::Undefined;

/// Why a run stops before its end.
#[derive(Clone, Copy)]
pub enum Stop {
    /// What C leaves undefined, by the number of its rule, at the place of its expression. Rule 0 is what no
    /// typed program does.
    Undefined { rule: u8, at: u32 },
    /// A loop that does not keep its bounds, at the place of its keyword.
    Broken { at: u32 },
}

/// How a statement that ends goes on (C11 6.8.6). A return may lack a value.
#[derive(Clone, Copy)]
pub enum Flow {
    Onward,
    Break,
    Continue,
    Return(Option<u32>),
}

/// An element of an object, found at a place of the source.
#[derive(Clone, Copy)]
pub struct Found {
    pub object: usize,
    pub index: usize,
    pub at: u32,
}

/// The words of two operands.
#[derive(Clone, Copy)]
pub struct Operands {
    pub left: u32,
    pub right: u32,
}

/// An element that is assigned, and the word on the right side.
#[derive(Clone, Copy)]
pub struct Target {
    pub found: Found,
    pub word: u32,
}

/// The words of an element before and behind a change.
#[derive(Clone, Copy)]
pub struct Change {
    pub before: u32,
    pub behind: u32,
}

impl Found {
    /// The same element, at another place of the source.
    pub fn at_place(self, at: u32) -> Found
        ensures { result ≡ at_place at self }
    {
        Found {
            object: self.object,
            index: self.index,
            at,
        }
    }
}

impl Target {
    /// The same target, with its element at another place of the source.
    pub fn at_place(self, at: u32) -> Target
        ensures found { result.found ≡ at_place at self.found }
        ensures word { result.word ≡ self.word }
    {
        Target {
            found: self.found.at_place(at),
            word: self.word,
        }
    }
}

/// The number of the rule.
pub fn rule_of(cause: Undefined) -> u8
    ensures { result ≡ rule_of cause }
{
    match cause {
        Undefined::Overflow => 1,
        Undefined::ZeroDivisor => 2,
        Undefined::Quotient => 3,
        Undefined::ShiftCount => 4,
        Undefined::LeftShift => 5,
    }
}
