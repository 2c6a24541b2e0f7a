use super::declaration::{Declaration, Param};
use super::expression::{FunctionId, ObjectId};
use super::statement::Item;
use c_tree::Pragma;
use c_tree::expression::{NameId, Specifier};

/// A function definition, at the place of its first specifier.
#[derive(Drop)]
pub struct Function {
    pub specifiers: Vec<Specifier>,
    pub name: NameId,
    /// The place of the name.
    pub name_at: u32,
    pub params: Vec<Param>,
    /// The number of the first parameter. The others follow it.
    pub first: ObjectId,
    pub body: Vec<Item>,
    /// The place of the body's opening brace.
    pub body_at: u32,
    pub at: u32,
}

/// What stands at file level.
#[derive(Drop)]
pub enum External {
    Restriction(Pragma),
    Declaration(Declaration),
    /// The definition of the function of this number.
    Function(FunctionId),
}
