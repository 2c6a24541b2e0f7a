ghost use Rattle.std.specs.Prelude.{◌≡◌, ◌||◌, ◌&&◌, IfOk};
ghost use Rattle.types_rules.specs.ExpressionRules.{when};
ghost use Rattle.types_rules.specs.Scope.{or_else};
ghost use Rattle.types_rules.specs.Sights.{fault_at};

use c_tree::expression::Specifier;
use std::alloc::{AllocError, Global};
use types_rules::{Fault, Rule};

pub fn when(broken: bool, rule: Rule) -> Option<Rule>
    ensures { result ≡ when broken rule }
{
    if broken { Some(rule) } else { None }
}

pub fn rule_or(one: Option<Rule>, other: Option<Rule>) -> Option<Rule>
    ensures { result ≡ or_else one other }
{
    match one {
        Some(rule) => Some(rule),
        None => other,
    }
}

pub fn fault_at(rule: Option<Rule>, at: u32) -> Option<Fault>
    ensures { result ≡ fault_at rule at }
{
    match rule {
        Some(rule) => Some(Fault { rule, at }),
        None => None,
    }
}

pub fn either(one: bool, other: bool) -> bool
    ensures { result ≡ (one || other) }
{
    one || other
}

pub fn both(one: bool, other: bool) -> bool
    ensures { result ≡ (one && other) }
{
    one && other
}

pub fn copy_specifiers(
    specifiers: &[Specifier],
    alloc: Global,
) -> Result<Vec<Specifier>, AllocError>
    ensures { IfOk result (λ copy. copy.items ≡ specifiers.now) }
{
    Ok(specifiers.to_vec(alloc)?)
}
