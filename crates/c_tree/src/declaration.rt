use super::expression::{Expr, NameId, Specifier};

/// Whether an object or parameter is an array, and its size where one is written (C11 6.7.6.2).
#[derive(Drop)]
pub enum Shape {
    Scalar,
    Unsized,
    Sized(Expr),
}

/// The initial value of an object (C11 6.7.9).
#[derive(Drop)]
pub enum Initial {
    Absent,
    Value(Expr),
    List {
        values: Vec<Expr>,
        /// Whether a comma ends the list.
        comma: bool,
    },
}

/// An object that a declaration declares, at the place of its name.
#[derive(Drop)]
pub struct Object {
    pub name: NameId,
    pub shape: Shape,
    pub initial: Initial,
    pub at: u32,
}

/// A parameter, at the place of its first specifier.
#[derive(Drop)]
pub struct Param {
    pub specifiers: Vec<Specifier>,
    pub name: Option<NameId>,
    pub shape: Shape,
    pub at: u32,
}

/// A declaration (C11 6.7), at the place of its first specifier.
#[derive(Drop)]
pub enum Declaration {
    Objects {
        specifiers: Vec<Specifier>,
        objects: Vec<Object>,
        at: u32,
    },
    /// A function that is declared and not defined.
    Prototype {
        specifiers: Vec<Specifier>,
        name: NameId,
        params: Vec<Param>,
        at: u32,
    },
}

impl Declaration {
    ghost use Rattle.std.specs.Prelude.{◌≡◌};
    ghost use Rattle.c_tree.specs.Formed.{declaration_place};
    ghost use Rattle.c_tree.specs.View.{declaration_of};

    /// The place of a declaration: that of its first specifier.
    pub fn place(&self) -> u32
        ensures { result ≡ declaration_place (declaration_of self.now) }
    {
        match self {
            Declaration::Objects { at, .. } => *at,
            Declaration::Prototype { at, .. } => *at,
        }
    }
}
