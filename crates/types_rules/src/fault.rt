use std::alloc::AllocError;
use thiserror::Error;
use wcc_base::Bound;

/// A rule of types and names. The number of a rule is that of its place here, from 1 on.
#[derive(Clone, Copy, Debug)]
pub enum Rule {
    /// Specifiers name a type, and each stands where it may and at most once.
    Specifiers,
    /// A used name is declared.
    Undeclared,
    /// No name is declared twice in a scope, and a function has one type and one definition.
    Redeclared,
    /// Sizes of arrays, labels and initial values of file level are constants with a defined value.
    Constant,
    /// An array has 1 to 262144 elements, and its list isn't longer.
    Size,
    /// An array's name stands where an array may, and what is indexed is an array.
    Array,
    /// A called name is a function, with arguments that fit its parameters.
    Call,
    /// No object is void, and no void value is used.
    Void,
    /// What is assigned or stepped is an object or element that isn't const.
    Assigned,
    /// The labels of a `switch` differ.
    Label,
    /// `break` and `continue` stand within what they leave or go on with.
    Jump,
    /// `return` has a value exactly where the function has one.
    Return,
    /// `int main` without parameters is defined.
    Main,
    /// A called function is defined.
    Undefined,
    /// A list initialises an array, an expression a scalar, and a const object of a block has an initial value.
    Initial,
    /// Parameters of a definition have names, all different.
    Parameter,
}

/// A rule that fails, and the place of the node at which it does.
#[derive(Clone, Copy)]
pub struct Fault {
    pub rule: Rule,
    pub at: u32,
}

/// Why a unit has no typed tree.
#[derive(Clone, Copy, Debug, Error)]
pub enum TypeFault {
    /// A counted quantity passes its limit.
    #[error("over a limit")]
    Limit { which: Bound, found: u64 },
    /// The first node in source order at which a rule fails, and the least rule that fails there.
    #[error("against the types at {at}")]
    Rule { rule: Rule, at: u32 },
    /// Memory ran out.
    #[error("out of memory")]
    Memory,
}

impl From<AllocError> for TypeFault {
    ghost use Rattle.std.specs.Prelude.{◌≡◌};
    ghost use Rattle.types_rules.specs.declared.fault.TypeFault.TheVariants.{Memory};

    ghost from_gives = { λ _ fault. fault ≡ Memory };

    fn from(_error: AllocError) -> TypeFault {
        TypeFault::Memory
    }
}
