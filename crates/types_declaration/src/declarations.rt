// Declarations.
ghost use Rattle.std.specs.Prelude.{◌≡◌, IfOk, OnOk};
ghost use Rattle.c_tree.specs.Tree.{Nothing, Prototype};
ghost use Rattle.c_tree.specs.View.{declaration_of as source_declaration, param_of as source_param, row_of};
ghost use Rattle.types_rules.specs.DeclarationRules.{base_of, declaration_rule, routine};
ghost use Rattle.types_rules.specs.Scope.{with_routine};
ghost use Rattle.types_declaration.specs.Declarations.{IsDeclaration, prototype_fault};
ghost use Rattle.types_declaration.specs.Objects.{base_said};

use super::objects::{Base, check_objects};
use super::params::check_params;
use super::routines::{is_no_list, redeclares, routine};
use super::rules::{copy_specifiers, fault_at, rule_or, when};
use c_tree::declaration::{Declaration as Source, Param};
use c_tree::expression::{NameId, Specifier};
use std::alloc::{AllocError, Global};
use types_expression::first_of;
use types_rules::{Fault, Rule, are_wrong, is_const, kind_spelled};
use types_scope::Table;
use types_tree::declaration::Declaration;

/// What was found in a declaration.
#[derive(Drop)]
pub struct CheckedDeclaration {
    pub declaration: Declaration,
    pub fault: Option<Fault>,
}

fn base_of(specifiers: &[Specifier]) -> Base
    ensures { base_said result ≡ base_of specifiers.now }
{
    Base {
        kind: kind_spelled(specifiers),
        is_const: is_const(specifiers),
    }
}

/// Declares a function that is not defined here.
fn introduce(
    specifiers: &[Specifier],
    name: NameId,
    params: &[Param],
    table: &mut Table,
    alloc: Global,
) -> Result<Option<Rule>, AllocError>
    ensures rule { IfOk result (λ rule. rule ≡ declaration_rule (Prototype specifiers.now name.0 (row_of source_param Nothing params.now) 0) table.old) }
    ensures after { OnOk result (table.new ≡ with_routine name.0 (routine specifiers.now (row_of source_param Nothing params.now)) table.old) }
{
    let routine = routine(specifiers, params, alloc)?;
    let wrong = are_wrong(true, table.in_block(), specifiers);
    let redeclared = redeclares(name.0, &routine, table);
    table.introduce(name.0, routine)?;
    Ok(rule_or(
        when(wrong, Rule::Specifiers),
        when(redeclared, Rule::Redeclared),
    ))
}

/// The first fault in the parameters of a mere declaration.
fn prototype_fault(
    params: &[Param],
    table: &Table,
    alloc: Global,
) -> Result<Option<Fault>, AllocError>
    ensures { IfOk result (λ fault. fault ≡ prototype_fault (row_of source_param Nothing params.now) table.now) }
{
    if is_no_list(params) {
        return Ok(None);
    }
    Ok(check_params(params, table, alloc)?.fault)
}

/// Checks a declaration, and declares what it declares.
pub fn check_declaration(
    declaration: &Source,
    table: &mut Table,
    alloc: Global,
) -> Result<CheckedDeclaration, AllocError>
    ensures { IfOk result (λ r. IsDeclaration r (source_declaration declaration.now) table.old table.new) }
{
    match declaration {
        Source::Objects {
            specifiers,
            objects,
            at,
        } => {
            let wrong = are_wrong(false, table.in_block(), specifiers);
            let own = fault_at(when(wrong, Rule::Specifiers), *at);
            let copied = copy_specifiers(specifiers, alloc)?;
            let inner = check_objects(base_of(specifiers), objects, table, alloc)?;
            Ok(CheckedDeclaration {
                declaration: Declaration::Objects {
                    specifiers: copied,
                    objects: inner.objects,
                    at: *at,
                },
                fault: first_of(own, inner.fault),
            })
        }
        Source::Prototype {
            specifiers,
            name,
            params,
            at,
        } => {
            let copied = copy_specifiers(specifiers, alloc)?;
            let before = check_params(params, table, alloc)?;
            let rule = introduce(specifiers, *name, params, table, alloc)?;
            let behind = prototype_fault(params, table, alloc)?;
            Ok(CheckedDeclaration {
                declaration: Declaration::Prototype {
                    specifiers: copied,
                    name: *name,
                    params: before.params,
                    at: *at,
                },
                fault: first_of(fault_at(rule, *at), behind),
            })
        }
    }
}
