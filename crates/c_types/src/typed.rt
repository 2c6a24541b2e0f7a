ghost use Rattle.std.specs.Prelude.{◌≡◌};
ghost use Rattle.types_rules.specs.Typed.{IsTypedTree};
ghost use Rattle.types_calls.specs.Calls.{CallsDefined};
ghost use Rattle.types_tree.specs.View.{program_of};

use types_tree::program::Program;

/// A typed program. It is the typed tree of a well-formed unit that is at most 256 nodes deep, within the limits
/// and fails no rule, and each call is of a function that it defines.
#[derive(Drop)]
pub struct Typed {
    pub program: Program,
    ghost is_typed: { ∥ IsTypedTree program.names.items (program_of program) ∥₁ },
    ghost calls_defined: { CallsDefined (program_of program) },
}

impl Typed {
    pub fn program(&self) -> &Program
        ensures program { result.now ≡ self.now.program }
        ensures typed { ∥ IsTypedTree result.now.names.items (program_of result.now) ∥₁ }
        ensures calls { CallsDefined (program_of result.now) }
    {
        &self.program
    }

    /// Lets go of a typed program. What it is made of is let go here, once.
    pub fn let_go(self) {
        drop(self);
    }
}
