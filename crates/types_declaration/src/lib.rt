//! The checker of declarations.
//!
//! As in `types_expression`, each call answers what `types_rules` defines, also where a rule fails.
//!
//! Proved: the typed form of a declaration, the first fault among its nodes, and what is visible behind it,
//! are those of `types_rules`; so are those of the parameters of a definition, and the type of a function. The
//! only error is want of memory.
//!
//! This crate knows no statement.
#![tactic(auto)]

mod declarations;
mod objects;
mod params;
mod routines;
mod rules;
mod shapes;
mod values;

pub use declarations::{CheckedDeclaration, check_declaration};
pub use objects::{Base, CheckedObjects, check_objects};
pub use params::{CheckedParams, check_params, declare_params};
pub use routines::{is_no_list, redeclares, routine};
pub use rules::{both, copy_specifiers, either, fault_at, rule_or, when};
pub use shapes::{
    Shaped, check_shape, extent, has_bad_param_size, has_bad_size, has_brackets,
    has_no_constant_size, list_length,
};
pub use values::{Started, check_initial, has_no_constant_value};
