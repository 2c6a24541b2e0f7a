// The typed tree of a unit.
ghost use Rattle.std.specs.Prelude.{◌≡◌, if◌then◌else◌, Some, None, IfErr, IfOk};
ghost use Rattle.c_tree.specs.Size.{size_unit};
ghost use Rattle.c_tree.specs.Tree.{Nothing};
ghost use Rattle.c_tree.specs.Units.{tree_of};
ghost use Rattle.c_tree.specs.View.{external_of, row_of};
ghost use Rattle.types_tree.specs.View.{program_of};
ghost use Rattle.types_rules.specs.Limits.{broken, limits_before, tally_unit};
ghost use Rattle.types_rules.specs.Sights.{has_main, is_main};
ghost use Rattle.types_rules.specs.declared.fault.Rule.TheVariants as rules;
ghost use Rattle.types_rules.specs.Typed.{Refuses, fault_of, typed_of};
ghost use Rattle.c_types.specs.Draft.{IsDraft};

use super::limits::{fault_or, limits_before, limits_behind};
use super::outline::outline;
use super::tally::tally_externals;
use super::typed::Typed;
use super::unit::check_externals;
use c_tree::external::External as Source;
use c_tree::{Unit, nodes};
use std::alloc::{AllocError, Global};
use types_declaration::{both, fault_at, is_no_list};
use types_expression::first_of;
use types_rules::{Fault, Rule, TypeFault, kind_spelled};
use types_scope::Table;
use types_tree::external::{External, Function};
use types_tree::program::Program;
use types_tree::variable::Variable;
use types_value::Kind;

/// What was found in a unit.
#[derive(Drop)]
pub struct Draft {
    pub items: Vec<External>,
    pub functions: Vec<Function>,
    pub variables: Vec<Variable>,
    /// Why it has no typed tree, of the causes from the rules on.
    pub fault: Option<TypeFault>,
}

fn is_main(external: &Source, main: u32) -> bool
    ensures { result ≡ is_main main (external_of external.now) }
{
    match external {
        Source::Restriction(_) => false,
        Source::Declaration(_) => false,
        Source::Function(function) => {
            let kind = kind_spelled(&function.specifiers);
            let rightly = both(kind.is(Kind::Int), is_no_list(&function.params));
            both(function.name.0 == main, rightly)
        }
    }
}

/// Whether `int main` without parameters is defined.
fn has_main(externals: &[Source], main: u32) -> bool
    ensures { result ≡ has_main main (row_of external_of Nothing externals.now) }
{
    for external in externals {
        if is_main(external, main) {
            return true;
        }
    }
    false
}

fn main_rule(found: bool) -> Option<Rule>
    ensures { result ≡ (if found then None else Some rules.Main) }
{
    if found { None } else { Some(Rule::Main) }
}

fn broken(fault: Option<Fault>) -> Option<TypeFault>
    ensures { result ≡ broken fault }
{
    match fault {
        None => None,
        Some(fault) => Some(TypeFault::Rule {
            rule: fault.rule,
            at: fault.at,
        }),
    }
}

/// The first limit that a unit passes, of those that come before the rules.
fn fault_before(unit: &Unit) -> Result<Option<TypeFault>, AllocError>
    ensures { IfOk result (λ fault. fault ≡ limits_before (size_unit (tree_of unit.now)).nodes (tally_unit (tree_of unit.now))) }
{
    let tally = tally_externals(&unit.items)?;
    Ok(limits_before(nodes(unit), tally))
}

/// The typed form of a unit, and the first cause from the rules on why it has none.
fn make_draft(unit: &Unit, alloc: Global) -> Result<Draft, AllocError>
    ensures { IfOk result (λ r. IsDraft r unit.now.names.items (tree_of unit.now)) }
{
    let known = outline(unit, alloc)?;
    let own = fault_at(main_rule(has_main(&unit.items, known.main())), unit.at);
    let mut table = Table::new(known, alloc)?;
    let inner = check_externals(&unit.items, &mut table, alloc)?;
    let variables = table.into_variables();
    let behind = limits_behind(&variables)?;
    let fault = fault_or(broken(first_of(own, inner.fault)), behind);
    Ok(Draft {
        items: inner.items,
        functions: inner.functions,
        variables,
        fault,
    })
}

/// The typed program of a unit that has one.
fn seal(unit: Unit, draft: Draft) -> Typed
    requires passes { fault_of unit.names.items (tree_of unit) ≡ None }
    requires draft { IsDraft draft unit.names.items (tree_of unit) }
    ensures typed { program_of result.program ≡ typed_of unit.names.items (tree_of unit) }
    ensures names { result.program.names.items ≡ unit.names.items }
{
    let Unit { items, names, at } = unit;
    drop(items);
    Typed {
        program: Program {
            items: draft.items,
            functions: draft.functions,
            variables: draft.variables,
            names,
            at,
        },
    }
}

/// What was found in a unit that has a typed program, or why it has none.
fn draft_of(unit: &Unit, alloc: Global) -> Result<Draft, TypeFault>
    ensures passes { IfOk result (λ draft. fault_of unit.now.names.items (tree_of unit.now) ≡ None) }
    ensures draft { IfOk result (λ draft. IsDraft draft unit.now.names.items (tree_of unit.now)) }
    ensures refused { IfErr result (λ fault. Refuses fault unit.now.names.items (tree_of unit.now)) }
{
    if let Some(fault) = fault_before(unit)? {
        return Err(fault);
    }
    let draft = make_draft(unit, alloc)?;
    if let Some(fault) = draft.fault {
        drop(draft);
        return Err(fault);
    }
    Ok(draft)
}

/// The typed program of a unit, or why it has none: the first of the limits of nodes, functions, parameters, markers and
/// restrictions that it passes; else the first node in source order at which a rule fails, with the least rule that
/// fails there; else the first of the limits of the bytes of its global and of its local objects.
pub fn check(alloc: Global, unit: Unit) -> Result<Typed, TypeFault>
    ensures passes { IfOk result (λ typed. fault_of unit.names.items (tree_of unit) ≡ None) }
    ensures typed { IfOk result (λ typed. program_of typed.program ≡ typed_of unit.names.items (tree_of unit)) }
    ensures names { IfOk result (λ typed. typed.program.names.items ≡ unit.names.items) }
    ensures refused { IfErr result (λ fault. Refuses fault unit.names.items (tree_of unit)) }
{
    match draft_of(&unit, alloc) {
        Ok(draft) => Ok(seal(unit, draft)),
        Err(fault) => {
            drop(unit);
            Err(fault)
        }
    }
}
