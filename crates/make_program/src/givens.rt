// The first values of a program's objects.
ghost use Rattle.std.specs.Prelude.{◌≡◌, ◌++◌, ◌∷◌, List, IfOk, OnOk, map};
ghost use Rattle.std.specs.List.{list_any};
ghost use Rattle.facts_definitions.specs.Starts.{word};
ghost use Rattle.types_tree.specs.Tree as trees;
ghost use Rattle.types_tree.specs.View.{expr_of, exprs_of, external_of, initial_of, object_of};
ghost use Rattle.plan_definition.specs.Layouts as layouts;
ghost use Rattle.plan_definition.specs.Layouts.{givens, givens_of, initial_words, is_const, word_or_zero, words_of};
ghost use Rattle.make_program.specs.Parts.{given_of};

use c_tree::expression::Specifier;
use facts_most::word;
use std::alloc::Global;
use std::collections::VecDeque;
use types_tree::declaration::{Declaration, Initial, Object};
use types_tree::expression::Expr;
use types_tree::external::External;
use wcc_base::Memory;

/// What file level gives an object: whether it is a constant, and its first values.
#[derive(Drop)]
pub struct Given {
    pub constant: bool,
    pub values: Vec<u32>,
}

fn is_const(specifiers: &[Specifier]) -> bool
    ensures { result ≡ list_any is_const specifiers.now }
{
    specifiers.iter().any(|s| matches!(s, Specifier::Const))
}

/// The word of a constant, or 0.
fn word_or_zero(expr: &Expr) -> u32
    ensures { result ≡ word_or_zero (word (expr_of expr.now)) }
{
    word(expr).unwrap_or(0)
}

fn words_of(alloc: Global, exprs: &[Expr]) -> Result<Vec<u32>, Memory>
    ensures { IfOk result (λ v. v.items ≡ words_of (exprs_of exprs.now)) }
{
    let mut words = Vec::with_capacity(alloc, exprs.len())?;
    for expr in exprs {
        words.push(word_or_zero(expr))?;
    }
    Ok(words)
}

/// The words of an initial value.
fn initial_words(alloc: Global, initial: &Initial) -> Result<Vec<u32>, Memory>
    ensures { IfOk result (λ v. v.items ≡ initial_words (initial_of initial.now)) }
{
    match initial {
        Initial::Absent => Ok(Vec::new(alloc)),
        Initial::Value(value) => Ok(Vec::from_array(alloc, [word_or_zero(value)])?),
        Initial::List { values, .. } => words_of(alloc, values),
    }
}

/// Adds what a declaration gives its objects.
fn add_givens(
    alloc: Global,
    constant: bool,
    objects: &[Object],
    all: &mut VecDeque<Given>,
) -> Result<(), Memory>
    ensures { OnOk result ((behind : List layouts.Given) → map given_of all.new.items ++ behind ≡ map given_of all.old.items ++ givens_of constant (map object_of objects.now) behind) }
{
    for object in objects {
        let values = initial_words(alloc, &object.initial)?;
        all.push_back(Given { constant, values })?;
    }
    Ok(())
}

fn add_item(alloc: Global, item: &External, all: &mut VecDeque<Given>) -> Result<(), Memory>
    ensures { OnOk result ((rest : List trees.External) → map given_of all.new.items ++ givens rest ≡ map given_of all.old.items ++ givens (external_of item.now ∷ rest)) }
{
    match item {
        External::Restriction(_) => Ok(()),
        External::Declaration(declaration) => match declaration {
            Declaration::Objects {
                specifiers,
                objects,
                ..
            } => add_givens(alloc, is_const(specifiers), objects, all),
            Declaration::Prototype { .. } => Ok(()),
        },
        External::Function(_) => Ok(()),
    }
}

/// What file level gives its objects, in their order.
pub fn givens(alloc: Global, items: &[External]) -> Result<VecDeque<Given>, Memory>
    ensures { IfOk result (λ v. map given_of v.items ≡ givens (map external_of items.now)) }
{
    let mut all = VecDeque::new(alloc);
    for item in items {
        add_item(alloc, item, &mut all)?;
    }
    Ok(all)
}
