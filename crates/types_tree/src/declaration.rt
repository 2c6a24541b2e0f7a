use super::expression::{Expr, ObjectId};
use super::statement::LoopId;
use c_tree::expression::{NameId, Specifier};

/// Whether an object or parameter is an array, and its size where one is written.
#[derive(Drop)]
pub enum Shape {
    Scalar,
    Unsized,
    Sized(Expr),
}

/// The initial value of an object, converted to its type.
#[derive(Drop)]
pub enum Initial {
    Absent,
    Value(Expr),
    List {
        values: Vec<Expr>,
        /// Whether a comma ends the list.
        comma: bool,
        /// The loop that fills the elements which a local list leaves over.
        filling: Option<LoopId>,
    },
}

/// An object that a declaration declares, at the place of its name.
#[derive(Drop)]
pub struct Object {
    pub object: ObjectId,
    pub shape: Shape,
    pub initial: Initial,
    pub at: u32,
}

/// A parameter, at the place of its first specifier. In a definition it is an object.
#[derive(Drop)]
pub struct Param {
    pub specifiers: Vec<Specifier>,
    pub name: Option<NameId>,
    pub shape: Shape,
    pub at: u32,
}

/// A declaration, at the place of its first specifier.
#[derive(Drop)]
pub enum Declaration {
    Objects {
        specifiers: Vec<Specifier>,
        objects: Vec<Object>,
        at: u32,
    },
    /// A function that is declared and not defined.
    Prototype {
        specifiers: Vec<Specifier>,
        name: NameId,
        params: Vec<Param>,
        at: u32,
    },
}
