// What is assigned or stepped.
ghost use Rattle.std.specs.Prelude.{◌≡◌, IfOk};
ghost use Rattle.c_tree.specs.View.{expr_of as source_of};
ghost use Rattle.types_rules.specs.ExpressionRules.{is_place};
ghost use Rattle.types_rules.specs.Typing.{place_in};
ghost use Rattle.types_tree.specs.View.{expr_of, place_of};

use super::bindings::{is_element_place, is_scalar_place};
use c_tree::expression::Expr as Source;
use std::alloc::{AllocError, Global};
use types_scope::Table;
use types_tree::expression::{Expr, ObjectId, Place};

/// Whether an expression may be assigned or stepped.
pub fn is_place(target: &Source, table: &Table) -> bool
    ensures { result ≡ is_place (source_of target.now) table.now }
{
    match target {
        Source::Name { name, .. } => is_scalar_place(table.found(name.0)),
        Source::Index { array, .. } => is_element_place(table.found(array.0)),
        Source::Paren { inner, .. } => is_place(inner, table),
        _ => false,
    }
}

/// The place that an expression reads.
pub fn place_in(expr: Box<Expr>, alloc: Global) -> Result<Box<Place>, AllocError>
    ensures { IfOk result (λ place. place_of place.value ≡ place_in (expr_of expr.value)) }
{
    match Box::into_inner(expr) {
        Expr::Read(place) => place.boxed(alloc),
        Expr::Paren { inner, at } => {
            let inner = place_in(inner, alloc)?;
            Place::Paren { inner, at }.boxed(alloc)
        }
        other => {
            drop(other);
            Place::Scalar {
                object: ObjectId(0),
                at: 0,
            }
            .boxed(alloc)
        }
    }
}
