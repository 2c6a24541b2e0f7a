use types_tree::expression::ObjectId;
use types_value::Kind;
use wcc_base::Items;

/// What a name stands for.
#[derive(Clone, Copy)]
pub enum Binding {
    Object {
        number: ObjectId,
        kind: Kind,
        is_const: bool,
        is_array: bool,
    },
    Function,
}

/// The type of a parameter. A `const` counts for an array alone (C11 6.7.6.3, paragraph 15).
#[derive(Clone, Copy)]
pub struct ParamType {
    pub kind: Kind,
    pub is_array: bool,
    pub is_const: bool,
}

/// The type of a function.
#[derive(Drop)]
pub struct Routine {
    pub result: Kind,
    pub params: Items<ParamType>,
}
