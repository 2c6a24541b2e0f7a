use super::declaration::{Declaration, Param};
use super::expression::{NameId, Specifier};
use super::pragma::Pragma;
use super::statement::Item;

/// A function definition (C11 6.9.1), at the place of its first specifier.
#[derive(Drop)]
pub struct Function {
    pub specifiers: Vec<Specifier>,
    pub name: NameId,
    /// The place of the name.
    pub name_at: u32,
    pub params: Vec<Param>,
    /// What stands in the braces of the body.
    pub body: Vec<Item>,
    /// The place of the body's opening brace.
    pub body_at: u32,
    pub at: u32,
}

/// What stands at file level (C11 6.9).
#[derive(Drop)]
pub enum External {
    /// A pragma that restricts the counts of a whole run.
    Restriction(Pragma),
    Declaration(Declaration),
    Function(Function),
}

impl External {
    ghost use Rattle.std.specs.Prelude.{◌≡◌};
    ghost use Rattle.c_tree.specs.Formed.{external_place};
    ghost use Rattle.c_tree.specs.View.{external_of};

    /// The place of a restriction, a declaration or a function.
    pub fn place(&self) -> u32
        ensures { result ≡ external_place (external_of self.now) }
    {
        match self {
            External::Restriction(pragma) => pragma.at,
            External::Declaration(declaration) => declaration.place(),
            External::Function(function) => function.at,
        }
    }
}
