// Which arrays calls pass.
ghost use Rattle.std.specs.Prelude.{◌≡◌, [], IfOk, map, replicate, reverse, slice_get, slice_index_or};
ghost use Rattle.high_ir.specs.View.{function_of, statement_of, statements_of};
ghost use Rattle.low_make.specs.View.{claims_of, passed_of};
ghost use Rattle.lower_definition.specs.Calls.{at_site, at_sites, by_function, by_functions, meant, none_passed, noted, passed_to, sites_of, sites_of_all};

use super::noting::{note, note_all};
use high_ir::Function;
use high_ir::object::Base;
use high_ir::statement::Statement;
use std::alloc::Global;
use wcc_base::Memory;

/// By array parameter of a function, and then by function: the arrays that calls pass.
pub type Claims = Vec<Vec<u32>>;

pub type Passed = Vec<Claims>;

/// What a walk over a function's calls goes by: how many arrays the program has, and which are passed to the function itself.
#[derive(Clone, Copy)]
struct Caller<'a> {
    alloc: Global,
    objects: u32,
    own: &'a [Vec<u32>],
}

/// The arrays that may be meant, behind others.
fn note_meant(caller: &Caller, array: Base, claim: &mut Vec<u32>) -> Result<(), Memory>
    ensures { IfOk result (λ _. claim.new.items ≡ noted claim.old.items (meant caller.now.objects (claims_of caller.now.own.now) array)) }
{
    match array {
        Base::Object(object) => {
            if object < caller.objects {
                return note(claim, object);
            }
            Ok(())
        }
        Base::Parameter(parameter) => match caller.own.get(parameter as usize) {
            None => Ok(()),
            Some(objects) => note_all(caller.alloc, caller.objects, claim, objects),
        },
    }
}

/// The arrays that a call passes.
fn pass(caller: &Caller, arrays: &[Base], claims: &mut Claims) -> Result<(), Memory>
    ensures { IfOk result (λ _. claims_of claims.new.items ≡ passed_to caller.now.objects (claims_of caller.now.own.now) arrays.now (claims_of claims.old.items)) }
{
    for i in 0..arrays.len() {
        match claims.get_mut(i) {
            None => return Ok(()),
            Some(claim) => note_meant(caller, arrays[i], claim)?,
        }
    }
    Ok(())
}

/// A call of a function.
fn pass_to(
    caller: &Caller,
    function: u32,
    arrays: &[Base],
    passed: &mut Passed,
) -> Result<(), Memory>
    ensures { IfOk result (λ _. passed_of passed.new.items ≡ at_site caller.now.objects (claims_of caller.now.own.now) (passed_of passed.old.items) (record { function = function; arrays = arrays.now })) }
{
    match passed.get_mut(function as usize) {
        None => Ok(()),
        Some(claims) => pass(caller, arrays, claims),
    }
}

/// The calls of a statement.
#[cycle(sites)]
#[tactic(auto, using(crate::proofs::Sites::at_sites_append))]
fn at_sites(caller: &Caller, statement: &Statement, passed: &mut Passed) -> Result<(), Memory>
    ensures { IfOk result (λ _. passed_of passed.new.items ≡ at_sites caller.now.objects (claims_of caller.now.own.now) (passed_of passed.old.items) (sites_of (statement_of statement.now))) }
{
    match statement {
        Statement::Set { .. } => Ok(()),
        Statement::Put { .. } => Ok(()),
        Statement::Get { .. } => Ok(()),
        Statement::Keep { .. } => Ok(()),
        Statement::Mark { .. } => Ok(()),
        Statement::Seq(parts) => at_all_sites(caller, parts, passed),
        Statement::If { first, other, .. } => {
            at_sites(caller, first, passed)?;
            at_sites(caller, other, passed)
        }
        Statement::Loop { body, .. } => at_sites(caller, body, passed),
        Statement::Block(body) => at_sites(caller, body, passed),
        Statement::Leave { .. } => Ok(()),
        Statement::Call {
            function,
            arrays,
            ..
        } => pass_to(caller, *function, arrays, passed),
        Statement::Return { .. } => Ok(()),
    }
}

#[cycle(sites)]
fn at_all_sites(caller: &Caller, parts: &[Statement], passed: &mut Passed) -> Result<(), Memory>
    ensures { IfOk result (λ _. passed_of passed.new.items ≡ at_sites caller.now.objects (claims_of caller.now.own.now) (passed_of passed.old.items) (sites_of_all (statements_of parts.now))) }
{
    for part in parts {
        at_sites(caller, part, passed)?;
    }
    Ok(())
}

/// A copy of what is passed to a function.
pub fn copied(alloc: Global, passed: &[Claims], function: u32) -> Result<Claims, Memory>
    ensures { IfOk result (λ c. claims_of c.items ≡ slice_index_or (passed_of passed.now) function []) }
{
    match passed.get(function as usize) {
        None => Ok(Vec::new(alloc)),
        Some(claims) => copies(alloc, claims),
    }
}

fn copies(alloc: Global, claims: &[Vec<u32>]) -> Result<Claims, Memory>
    ensures { IfOk result (λ c. claims_of c.items ≡ claims_of claims.now) }
{
    let mut copies = Vec::new(alloc);
    for claim in claims {
        copies.push(Vec::from_slice(alloc, claim)?)?;
    }
    Ok(copies)
}

/// The calls of a function.
fn by_function(
    alloc: Global,
    objects: u32,
    functions: &[Function],
    f: u32,
    passed: &mut Passed,
) -> Result<(), Memory>
    ensures { IfOk result (λ _. passed_of passed.new.items ≡ by_function objects f (slice_get (map function_of functions.now) f) (passed_of passed.old.items)) }
{
    match functions.get(f as usize) {
        None => Ok(()),
        Some(function) => {
            let own = copied(alloc, passed, f)?;
            let caller = Caller {
                alloc,
                objects,
                own: &own,
            };
            at_sites(&caller, &function.body, passed)?;
            Ok(())
        }
    }
}

fn nothing(alloc: Global, arrays: u32) -> Result<Claims, Memory>
    ensures { IfOk result (λ c. claims_of c.items ≡ replicate arrays []) }
{
    let mut claims = Vec::new(alloc);
    for _ in 0..arrays {
        claims.push(Vec::new(alloc))?;
    }
    Ok(claims)
}

fn none_passed(alloc: Global, functions: &[Function]) -> Result<Passed, Memory>
    ensures { IfOk result (λ p. passed_of p.items ≡ none_passed (map function_of functions.now)) }
{
    let mut passed = Vec::new(alloc);
    for function in functions {
        passed.push(nothing(alloc, function.arrays)?)?;
    }
    Ok(passed)
}

/// The arrays that calls pass, where each function stands behind those that it calls.
pub fn all_passed(
    alloc: Global,
    objects: u32,
    functions: &[Function],
    order: &[u32],
) -> Result<Passed, Memory>
    ensures { IfOk result (λ p. passed_of p.items ≡ by_functions objects (map function_of functions.now) (reverse order.now) (none_passed (map function_of functions.now))) }
{
    let mut passed = none_passed(alloc, functions)?;
    let mut i = order.len();
    while i > 0 {
        i -= 1;
        by_function(alloc, objects, functions, order[i], &mut passed)?;
    }
    Ok(passed)
}
