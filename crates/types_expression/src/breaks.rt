ghost use Rattle.std.specs.Prelude.{◌≡◌, ◌&&◌, ◌||◌, false};
ghost use Rattle.types_rules.specs.ExpressionRules.{differ, when};
ghost use Rattle.types_rules.specs.Scope.{or_else};
ghost use Rattle.types_rules.specs.Sights.{fault_at};
ghost use Rattle.types_expression.specs.Breaks.{broken_rule, call_kind};

use types_rules::{Fault, Rule};
use types_value::Kind;

/// Which rules an expression breaks by itself.
#[derive(Clone, Copy)]
pub struct Breaks {
    pub words: bool,
    pub undeclared: bool,
    pub array: bool,
    pub call: bool,
    pub void: bool,
    pub place: bool,
    pub undefined: bool,
}

fn when(broken: bool, rule: Rule) -> Option<Rule>
    ensures { result ≡ when broken rule }
{
    if broken { Some(rule) } else { None }
}

fn or_else(one: Option<Rule>, other: Option<Rule>) -> Option<Rule>
    ensures { result ≡ or_else one other }
{
    match one {
        Some(rule) => Some(rule),
        None => other,
    }
}

pub fn first_of(one: Option<Fault>, other: Option<Fault>) -> Option<Fault>
    ensures { result ≡ or_else one other }
{
    match one {
        Some(fault) => Some(fault),
        None => other,
    }
}

pub fn either(one: bool, other: bool) -> bool
    ensures { result ≡ (one || other) }
{
    one || other
}

pub fn both(one: bool, other: bool) -> bool
    ensures { result ≡ (one && other) }
{
    one && other
}

pub fn differ(one: bool, other: bool) -> bool
    ensures { result ≡ differ one other }
{
    if one { !other } else { other }
}

impl Breaks {
    /// Of a name.
    pub fn of_name(undeclared: bool, array: bool, call: bool) -> Breaks
        ensures { result ≡ record { words = false; undeclared = undeclared; array = array; call = call; void = false; place = false; undefined = false } }
    {
        Breaks {
            words: false,
            undeclared,
            array,
            call,
            void: false,
            place: false,
            undefined: false,
        }
    }

    /// Of an element.
    pub fn of_index(undeclared: bool, array: bool, void: bool) -> Breaks
        ensures { result ≡ record { words = false; undeclared = undeclared; array = array; call = false; void = void; place = false; undefined = false } }
    {
        Breaks {
            words: false,
            undeclared,
            array,
            call: false,
            void,
            place: false,
            undefined: false,
        }
    }

    /// Of a call.
    pub fn of_call(undeclared: bool, call: bool, void: bool, undefined: bool) -> Breaks
        ensures { result ≡ record { words = false; undeclared = undeclared; array = false; call = call; void = void; place = false; undefined = undefined } }
    {
        Breaks {
            words: false,
            undeclared,
            array: false,
            call,
            void,
            place: false,
            undefined,
        }
    }

    /// Of a cast.
    pub fn of_cast(words: bool, void: bool) -> Breaks
        ensures { result ≡ record { words = words; undeclared = false; array = false; call = false; void = void; place = false; undefined = false } }
    {
        Breaks {
            words,
            undeclared: false,
            array: false,
            call: false,
            void,
            place: false,
            undefined: false,
        }
    }

    /// Of an assignment or step.
    pub fn of_place(void: bool, place: bool) -> Breaks
        ensures { result ≡ record { words = false; undeclared = false; array = false; call = false; void = void; place = place; undefined = false } }
    {
        Breaks {
            words: false,
            undeclared: false,
            array: false,
            call: false,
            void,
            place,
            undefined: false,
        }
    }

    /// Of an operator that uses values.
    pub fn of_void(void: bool) -> Breaks
        ensures { result ≡ record { words = false; undeclared = false; array = false; call = false; void = void; place = false; undefined = false } }
    {
        Breaks {
            words: false,
            undeclared: false,
            array: false,
            call: false,
            void,
            place: false,
            undefined: false,
        }
    }

    /// The type of a call of a function with this result: int where a rule is broken.
    pub fn kind(self, result_kind: Kind) -> Kind
        ensures { result ≡ call_kind self result_kind }
    {
        if self.undeclared {
            return Kind::Int;
        }
        if self.call {
            return Kind::Int;
        }
        if self.void {
            return Kind::Int;
        }
        if self.undefined {
            return Kind::Int;
        }
        result_kind
    }

    fn rule(self) -> Option<Rule>
        ensures { result ≡ broken_rule self }
    {
        let last = or_else(
            when(self.place, Rule::Assigned),
            when(self.undefined, Rule::Undefined),
        );
        let later = or_else(when(self.void, Rule::Void), last);
        let middle = or_else(when(self.call, Rule::Call), later);
        let early = or_else(when(self.array, Rule::Array), middle);
        or_else(
            when(self.words, Rule::Specifiers),
            or_else(when(self.undeclared, Rule::Undeclared), early),
        )
    }

    /// The least of them, at a place.
    pub fn fault(self, at: u32) -> Option<Fault>
        ensures { result ≡ fault_at (broken_rule self) at }
    {
        match self.rule() {
            Some(rule) => Some(Fault { rule, at }),
            None => None,
        }
    }
}
