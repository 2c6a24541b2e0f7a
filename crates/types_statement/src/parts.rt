// The parts of statements.
ghost use Rattle.std.specs.Prelude.{◌≡◌, ◌++◌, ◌∷◌, [], is_some, IfOk, OnOk};
ghost use Rattle.c_tree.specs.Named.{map_option};
ghost use Rattle.c_tree.specs.View.{expr_of as source_of, start_of as source_start};
ghost use Rattle.types_tree.specs.View.{expr_of, start_of};
ghost use Rattle.types_rules.specs.ExpressionRules.{differ, when};
ghost use Rattle.types_rules.specs.Scope.{or_else};
ghost use Rattle.types_statement.specs.Checked.{IsChoice, IsTest};
ghost use Rattle.types_rules.specs.Sights.{fault_at, first_fault, option_nodes, start_nodes};
ghost use Rattle.types_rules.specs.StatementRules.{after_start, is_void_option};
ghost use Rattle.types_rules.specs.Typing.{option_at, typed_option, typed_start};
ghost use Rattle.types_rules.specs.declared.fault.Rule.TheVariants as rules;

use super::checked::{CheckedOption, CheckedStart, CheckedTest};
use c_tree::Pragma;
use c_tree::expression::Expr as Source;
use c_tree::statement::ForStart as SourceStart;
use std::alloc::{AllocError, Global};
use types_declaration::{check_declaration, fault_at, rule_or, when};
use types_expression::{check, convert};
use types_rules::{Fault, Rule};
use types_scope::Table;
use types_tree::statement::{ForStart, Item};
use types_value::Kind;
use wcc_base::Text;

pub fn copy_pragma(pragma: &Pragma, alloc: Global) -> Result<Pragma, AllocError>
    ensures { IfOk result (λ copy. copy ≡ pragma.now) }
{
    let text = pragma.text.as_bytes().to_vec(alloc)?;
    Ok(Pragma {
        text: Text::new(text),
        at: pragma.at,
    })
}

pub fn copy_bound(bound: &Option<Pragma>, alloc: Global) -> Result<Option<Pragma>, AllocError>
    ensures { IfOk result (λ copy. copy ≡ bound.now) }
{
    match bound {
        None => Ok(None),
        Some(pragma) => Ok(Some(copy_pragma(pragma, alloc)?)),
    }
}

pub fn push(items: &mut Vec<Item>, item: Item) -> Result<(), AllocError>
    ensures { OnOk result (items.new.items ≡ items.old.items ++ item ∷ []) }
{
    items.push(item)?;
    Ok(())
}

/// The least of the rules that fail at a statement.
pub fn own_fault(void: bool, jumps: bool, returns: bool, at: u32) -> Option<Fault>
    ensures { result ≡ fault_at (or_else (when void rules.Void) (or_else (when jumps rules.Jump) (when returns rules.Return))) at }
{
    let later = rule_or(when(jumps, Rule::Jump), when(returns, Rule::Return));
    fault_at(rule_or(when(void, Rule::Void), later), at)
}

pub fn differ(one: bool, other: bool) -> bool
    ensures { result ≡ differ one other }
{
    if one { !other } else { other }
}

pub fn has_value(value: &Option<Source>) -> bool
    ensures { result ≡ is_some (map_option source_of value.now) }
{
    match value {
        None => false,
        Some(_) => true,
    }
}

/// Checks an expression that may be missing.
pub fn check_option(
    value: &Option<Source>,
    table: &Table,
    alloc: Global,
) -> Result<CheckedOption, AllocError>
    ensures value { IfOk result (λ r. map_option expr_of r.value ≡ typed_option (map_option source_of value.now) table.now) }
    ensures void { IfOk result (λ r. r.void ≡ is_void_option (map_option source_of value.now) table.now) }
    ensures fault { IfOk result (λ r. r.fault ≡ first_fault (option_nodes (map_option source_of value.now) table.now)) }
{
    match value {
        None => Ok(CheckedOption {
            value: None,
            void: false,
            fault: None,
        }),
        Some(value) => {
            let inner = check(value, false, table, alloc)?;
            let (void, fault) = (inner.value.kind.is_void(), inner.fault);
            Ok(CheckedOption {
                value: Some(Box::into_inner(inner.value.expr)),
                void,
                fault,
            })
        }
    }
}

/// Checks a value that may be missing, and converts it to a type.
pub fn check_option_at(
    kind: Kind,
    value: &Option<Source>,
    table: &Table,
    alloc: Global,
) -> Result<CheckedOption, AllocError>
    ensures value { IfOk result (λ r. map_option expr_of r.value ≡ option_at kind (map_option source_of value.now) table.now) }
    ensures void { IfOk result (λ r. r.void ≡ is_void_option (map_option source_of value.now) table.now) }
    ensures fault { IfOk result (λ r. r.fault ≡ first_fault (option_nodes (map_option source_of value.now) table.now)) }
{
    match value {
        None => Ok(CheckedOption {
            value: None,
            void: false,
            fault: None,
        }),
        Some(value) => {
            let inner = check(value, false, table, alloc)?;
            let (from, fault) = (inner.value.kind, inner.fault);
            let expr = convert(from, kind, inner.value.expr, alloc)?;
            Ok(CheckedOption {
                value: Some(Box::into_inner(expr)),
                void: from.is_void(),
                fault,
            })
        }
    }
}

/// Checks what stands first in the head of a `for`, and declares what it declares.
pub fn check_start(
    start: &SourceStart,
    table: &mut Table,
    alloc: Global,
) -> Result<CheckedStart, AllocError>
    ensures start { IfOk result (λ r. start_of r.start ≡ typed_start (source_start start.now) table.old) }
    ensures fault { IfOk result (λ r. r.fault ≡ first_fault (start_nodes (source_start start.now) table.old)) }
    ensures after { OnOk result (table.new ≡ after_start (source_start start.now) table.old) }
{
    match start {
        SourceStart::Absent => Ok(CheckedStart {
            start: ForStart::Absent,
            fault: None,
        }),
        SourceStart::Expression(value) => {
            let inner = check(value, false, table, alloc)?;
            Ok(CheckedStart {
                start: ForStart::Expression(Box::into_inner(inner.value.expr)),
                fault: inner.fault,
            })
        }
        SourceStart::Declaration(declaration) => {
            let inner = check_declaration(declaration, table, alloc)?;
            Ok(CheckedStart {
                start: ForStart::Declaration(inner.declaration),
                fault: inner.fault,
            })
        }
    }
}

/// Checks the test of a statement at this place.
pub fn check_test(
    test: &Source,
    at: u32,
    table: &Table,
    alloc: Global,
) -> Result<CheckedTest, AllocError>
    ensures { IfOk result (λ r. IsTest r (source_of test.now) at table.now) }
{
    let inner = check(test, false, table, alloc)?;
    let own = own_fault(inner.value.kind.is_void(), false, false, at);
    let fault = inner.fault;
    Ok(CheckedTest {
        test: inner.value.expr,
        own,
        fault,
    })
}

/// Checks the value that a `switch` at this place chooses by, and promotes it.
pub fn check_choice(
    test: &Source,
    at: u32,
    table: &Table,
    alloc: Global,
) -> Result<CheckedTest, AllocError>
    ensures { IfOk result (λ r. IsChoice r (source_of test.now) at table.now) }
{
    let inner = check(test, false, table, alloc)?;
    let (kind, fault) = (inner.value.kind, inner.fault);
    let own = own_fault(kind.is_void(), false, false, at);
    let test = convert(kind, kind.promoted(), inner.value.expr, alloc)?;
    Ok(CheckedTest { test, own, fault })
}
