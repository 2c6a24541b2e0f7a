// Initial values.
ghost use Rattle.std.specs.Prelude.{◌≡◌, ◌++◌, ◌∷◌, [], IfOk, OnOk};
ghost use Rattle.c_tree.specs.Tree.{NoExpr};
ghost use Rattle.c_tree.specs.Named.{map_option};
ghost use Rattle.c_tree.specs.View.{exprs_of as sources_of, initial_of as source_initial};
ghost use Rattle.types_tree.specs.View.{initial_of, loop_of};
ghost use Rattle.types_rules.specs.DeclarationRules.{any_not_constant, has_no_constant_value, has_void_value};
ghost use Rattle.types_rules.specs.Sights.{first_fault, initial_nodes};
ghost use Rattle.types_rules.specs.Typing.{typed_initial};
ghost use Rattle.types_declaration.specs.Values.{AreValues};

use super::rules::either;
use c_tree::declaration::Initial as Source;
use c_tree::expression::Expr as SourceExpr;
use std::alloc::{AllocError, Global};
use types_expression::{check, convert, first_of};
use types_rules::{Fault, constant_word};
use types_scope::Table;
use types_tree::declaration::Initial;
use types_tree::expression::Expr;
use types_tree::statement::LoopId;
use types_value::Kind;

/// What was found in a list of values.
#[derive(Drop)]
pub struct Values {
    pub exprs: Vec<Expr>,
    pub void: bool,
    pub fault: Option<Fault>,
}

/// What was found in an initial value.
#[derive(Drop)]
pub struct Started {
    pub initial: Initial,
    pub void: bool,
    pub fault: Option<Fault>,
}

fn push(exprs: &mut Vec<Expr>, expr: Box<Expr>) -> Result<(), AllocError>
    ensures { OnOk result (exprs.new.items ≡ exprs.old.items ++ expr.value ∷ []) }
{
    exprs.push(Box::into_inner(expr))?;
    Ok(())
}

/// Checks values that are converted to a type.
fn check_values(
    kind: Kind,
    given: &[SourceExpr],
    table: &Table,
    alloc: Global,
) -> Result<Values, AllocError>
    ensures { IfOk result (λ r. AreValues r kind (sources_of NoExpr given.now) table.now) }
{
    let mut exprs = Vec::new(alloc);
    let mut void = false;
    let mut fault = None;
    for source in given {
        let inner = check(source, false, table, alloc)?;
        void = either(void, inner.value.kind.is_void());
        fault = first_of(fault, inner.fault);
        let expr = convert(inner.value.kind, kind, inner.value.expr, alloc)?;
        push(&mut exprs, expr)?;
    }
    Ok(Values { exprs, void, fault })
}

/// Checks the initial value of an object of a type. A list may leave elements over, which a loop fills.
pub fn check_initial(
    kind: Kind,
    filling: Option<LoopId>,
    initial: &Source,
    table: &Table,
    alloc: Global,
) -> Result<Started, AllocError>
    ensures initial { IfOk result (λ r. initial_of r.initial ≡ typed_initial kind (map_option loop_of filling) (source_initial initial.now) table.now) }
    ensures void { IfOk result (λ r. r.void ≡ has_void_value (source_initial initial.now) table.now) }
    ensures fault { IfOk result (λ r. r.fault ≡ first_fault (initial_nodes (source_initial initial.now) table.now)) }
{
    match initial {
        Source::Absent => Ok(Started {
            initial: Initial::Absent,
            void: false,
            fault: None,
        }),
        Source::Value(value) => {
            let inner = check(value, false, table, alloc)?;
            let void = inner.value.kind.is_void();
            let expr = convert(inner.value.kind, kind, inner.value.expr, alloc)?;
            Ok(Started {
                initial: Initial::Value(Box::into_inner(expr)),
                void,
                fault: inner.fault,
            })
        }
        Source::List { values, comma } => {
            let inner = check_values(kind, values, table, alloc)?;
            let initial = Initial::List {
                values: inner.exprs,
                comma: *comma,
                filling,
            };
            Ok(Started {
                initial,
                void: inner.void,
                fault: inner.fault,
            })
        }
    }
}

fn any_not_constant(given: &[SourceExpr]) -> bool
    ensures { result ≡ any_not_constant (sources_of NoExpr given.now) }
{
    let mut found = false;
    for source in given {
        found = either(found, constant_word(source).is_none());
    }
    found
}

/// Whether an initial value is no constant.
pub fn has_no_constant_value(initial: &Source) -> bool
    ensures { result ≡ has_no_constant_value (source_initial initial.now) }
{
    match initial {
        Source::Absent => false,
        Source::Value(value) => constant_word(value).is_none(),
        Source::List { values, .. } => any_not_constant(values),
    }
}
