// Parameters.
ghost use Rattle.std.specs.Prelude.{◌≡◌, ◌++◌, ◌∷◌, [], IfOk, OnOk};
ghost use Rattle.c_tree.specs.Tree.{Nothing};
ghost use Rattle.c_tree.specs.View.{param_of as source_param, row_of, shape_of as source_shape};
ghost use Rattle.types_tree.specs.View.{param_of};
ghost use Rattle.types_rules.specs.DeclarationRules.{after_param, after_params, param_extent, param_rule, prototype_param_rule};
ghost use Rattle.types_rules.specs.Sights.{first_fault, param_nodes, params_nodes, prototype_param_nodes};
ghost use Rattle.types_rules.specs.Typing.{typed_param};
ghost use Rattle.types_declaration.specs.Params.{AreParams, is_taken_at};

use super::rules::{copy_specifiers, fault_at, rule_or, when};
use super::shapes::{check_shape, has_bad_param_size, has_no_constant_size, shape_fault};
use c_tree::declaration::{Param as Source, Shape};
use c_tree::expression::NameId;
use std::alloc::{AllocError, Global};
use types_expression::first_of;
use types_rules::{Fault, Rule, are_wrong, is_const, kind_spelled};
use types_scope::Table;
use types_tree::declaration::Param;
use types_tree::variable::Extent;

/// What was found in a parameter.
#[derive(Drop)]
pub struct CheckedParam {
    pub param: Param,
    pub fault: Option<Fault>,
}

/// What was found in the parameters of a mere declaration.
#[derive(Drop)]
pub struct CheckedParams {
    pub params: Vec<Param>,
    pub fault: Option<Fault>,
}

/// The least rule that fails at a parameter of a mere declaration.
fn prototype_param_rule(param: &Source, table: &Table) -> Option<Rule>
    ensures { result ≡ prototype_param_rule (source_param param.now) table.now }
{
    let wrong = are_wrong(false, table.in_block(), &param.specifiers);
    let constant = when(has_no_constant_size(&param.shape), Rule::Constant);
    let size = when(has_bad_param_size(&param.shape), Rule::Size);
    let void = when(kind_spelled(&param.specifiers).is_void(), Rule::Void);
    rule_or(
        when(wrong, Rule::Specifiers),
        rule_or(constant, rule_or(size, void)),
    )
}

fn check_param(param: &Source, table: &Table, alloc: Global) -> Result<CheckedParam, AllocError>
    ensures param { IfOk result (λ r. param_of r.param ≡ typed_param table.now (source_param param.now)) }
    ensures fault { IfOk result (λ r. r.fault ≡ first_fault (prototype_param_nodes (source_param param.now) table.now)) }
{
    let own = fault_at(prototype_param_rule(param, table), param.at);
    let specifiers = copy_specifiers(&param.specifiers, alloc)?;
    let shape = check_shape(&param.shape, table, alloc)?;
    Ok(CheckedParam {
        param: Param {
            specifiers,
            name: param.name,
            shape: shape.shape,
            at: param.at,
        },
        fault: first_of(own, shape.fault),
    })
}

fn push(params: &mut Vec<Param>, param: Param) -> Result<(), AllocError>
    ensures { OnOk result (params.new.items ≡ params.old.items ++ param ∷ []) }
{
    params.push(param)?;
    Ok(())
}

/// Checks the parameters of a mere declaration, which leave nothing visible.
pub fn check_params(
    given: &[Source],
    table: &Table,
    alloc: Global,
) -> Result<CheckedParams, AllocError>
    ensures { IfOk result (λ r. AreParams r given.now table.now) }
{
    let mut params = Vec::new(alloc);
    let mut fault = None;
    for source in given {
        let inner = check_param(source, table, alloc)?;
        fault = first_of(fault, inner.fault);
        push(&mut params, inner.param)?;
    }
    Ok(CheckedParams { params, fault })
}

/// Whether a parameter lacks a name of its own.
fn is_taken(name: Option<NameId>, table: &Table) -> bool
    ensures { result ≡ is_taken_at name table.now }
{
    match name {
        None => true,
        Some(name) => table.found_here(name.0).is_some(),
    }
}

/// The least rule that fails at a parameter of a definition.
fn param_rule(param: &Source, table: &Table) -> Option<Rule>
    ensures { result ≡ param_rule (source_param param.now) table.now }
{
    let wrong = are_wrong(false, false, &param.specifiers);
    let constant = when(has_no_constant_size(&param.shape), Rule::Constant);
    let size = when(has_bad_param_size(&param.shape), Rule::Size);
    let void = when(kind_spelled(&param.specifiers).is_void(), Rule::Void);
    let taken = when(is_taken(param.name, table), Rule::Parameter);
    rule_or(
        when(wrong, Rule::Specifiers),
        rule_or(constant, rule_or(size, rule_or(void, taken))),
    )
}

fn param_extent(shape: &Shape) -> Extent
    ensures { result ≡ param_extent (source_shape shape.now) }
{
    match shape {
        Shape::Scalar => Extent::Scalar,
        Shape::Unsized => Extent::Parameter,
        Shape::Sized(_) => Extent::Parameter,
    }
}

/// Declares a parameter of a definition, where it has a name.
fn declare(param: &Source, table: &mut Table) -> Result<(), AllocError>
    ensures { OnOk result (table.new ≡ after_param (source_param param.now) table.old) }
{
    match param.name {
        None => Ok(()),
        Some(name) => {
            let kind = kind_spelled(&param.specifiers);
            let is_const = is_const(&param.specifiers);
            table.declare(name.0, kind, is_const, param_extent(&param.shape))
        }
    }
}

/// The first fault in a parameter of a definition, which is declared.
fn declare_param(
    param: &Source,
    table: &mut Table,
    alloc: Global,
) -> Result<Option<Fault>, AllocError>
    ensures fault { IfOk result (λ fault. fault ≡ first_fault (param_nodes (source_param param.now) table.old)) }
    ensures after { OnOk result (table.new ≡ after_param (source_param param.now) table.old) }
{
    let fault = shape_fault(&param.shape, table, alloc)?;
    let own = fault_at(param_rule(param, table), param.at);
    declare(param, table)?;
    Ok(first_of(own, fault))
}

/// The first fault in the parameters of a definition, which are declared.
pub fn declare_params(
    given: &[Source],
    table: &mut Table,
    alloc: Global,
) -> Result<Option<Fault>, AllocError>
    ensures fault { IfOk result (λ fault. fault ≡ first_fault (params_nodes (row_of source_param Nothing given.now) table.old)) }
    ensures after { OnOk result (table.new ≡ after_params (row_of source_param Nothing given.now) table.old) }
{
    let mut fault = None;
    for source in given {
        let found = declare_param(source, table, alloc)?;
        fault = first_of(fault, found);
    }
    Ok(fault)
}
