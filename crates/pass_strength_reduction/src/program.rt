// A program with pointers that step.
ghost use Rattle.std.specs.Prelude.{◌≡◌, ◌*◌, ◌++◌, ◌<◌, ◌≤◌, [], ◌∷◌, suc, true, All, map, IfOk, IfSome};
ghost use Rattle.std.specs.List.{AllZip};
ghost use Rattle.low_ir.specs.Programs.{low_of};
ghost use Rattle.low_ir.specs.Room.{room, weights};
ghost use Rattle.low_ir.specs.View.{claim_of, function_of, program};
ghost use Rattle.pass_strength_reduction_law.specs.Steps.{IsStepped, claims_of, spare_weight};
ghost use Rattle.pass_strength_reduction.specs.Changing.{IsChanged};
ghost use Rattle.pass_strength_reduction.specs.Sizes.{IsSteppedWithin};

use super::functions::{Around, changed, kept};
use super::sizes::is_small_beside;
use super::weighing::weight;
use low_ir::{Function, Low};
use low_parts::rooms::has_room;
use pass_dataflow_facts::Proposal;
use pass_strength_search::proposed;
use std::alloc::Global;
use wcc_base::Memory;

/// How many machine instructions a program may execute, whatever it is made of.
const SPARE_WEIGHT: u64 = 281474976710656;

/// What is proposed, by function.
fn all_proposed(
    alloc: Global,
    low: &Low,
    alone: &mut Vec<u32>,
) -> Result<Vec<Option<Proposal>>, Memory> {
    let mut all = Vec::new(alloc);
    for function in &low.functions {
        all.push(proposed(alloc, &low.claims, alone, function)?)?;
    }
    Ok(all)
}

fn is_any(proposals: &[Option<Proposal>]) -> bool {
    for proposal in proposals {
        if proposal.is_some() {
            return true;
        }
    }
    false
}

/// A function by what is proposed for it, or as it is.
fn function_by(
    alloc: Global,
    around: &Around,
    function: &Function,
    proposal: &Option<Proposal>,
) -> Result<Option<Function>, Memory>
    ensures { IfOk result (λ o. IfSome o (λ g. IsChanged around.now.claims.now around.now.alone.now around.now.objects (function_of function.now) (function_of g))) }
{
    match proposal {
        None => kept(alloc, function),
        Some(proposal) => match changed(alloc, around, function, proposal)? {
            None => kept(alloc, function),
            Some(new) => Ok(Some(new)),
        },
    }
}

fn functions_by(
    alloc: Global,
    around: &Around,
    functions: &[Function],
    proposals: &[Option<Proposal>],
) -> Result<Option<Vec<Function>>, Memory>
    ensures { IfOk result (λ o. IfSome o (λ made. AllZip (IsChanged around.now.claims.now around.now.alone.now around.now.objects) (map function_of functions.now) (map function_of made.items))) }
{
    let mut made = Vec::new(alloc);
    let mut rest = proposals;
    for function in functions {
        let Some((first, others)) = rest.split_first() else {
            return Ok(None);
        };
        let Some(new) = function_by(alloc, around, function, first)? else {
            return Ok(None);
        };
        made.push(new)?;
        rest = others;
    }
    Ok(Some(made))
}

fn are_there(objects: usize, alone: &[u32]) -> bool
    ensures { result ≡ true → All (λ o. o < objects) alone.now }
{
    for object in alone {
        if *object as usize >= objects {
            return false;
        }
    }
    true
}

fn is_light(alloc: Global, functions: &[Function], main: u32) -> Result<bool, Memory>
    ensures { IfOk result (λ b. b ≡ true → weights (map function_of functions.now) (suc main) main ≤ spare_weight) }
{
    match weight(alloc, functions, main)? {
        None => Ok(false),
        Some(most) => Ok(most <= SPARE_WEIGHT),
    }
}

fn same_claim(alloc: Global, claim: &[u32]) -> Result<Vec<u32>, Memory>
    ensures { IfOk result (λ same. same.items ≡ claim.now) }
{
    Ok(Vec::from_slice(alloc, claim)?)
}

fn same_claims(alloc: Global, claims: &[Vec<u32>]) -> Result<Vec<Vec<u32>>, Memory>
    ensures { IfOk result (λ same. map claim_of same.items ≡ map claim_of claims.now) }
{
    let mut same = Vec::new(alloc);
    for claim in claims {
        same.push(same_claim(alloc, claim)?)?;
    }
    Ok(same)
}

fn claim_alone(alloc: Global, object: u32) -> Result<Vec<u32>, Memory>
    ensures { IfOk result (λ claim. claim.items ≡ object ∷ []) }
{
    let mut claim = Vec::new(alloc);
    claim.push(object)?;
    Ok(claim)
}

fn add_claims(alloc: Global, alone: &[u32], claims: &mut Vec<Vec<u32>>) -> Result<(), Memory>
    ensures { IfOk result (λ _. map claim_of claims.new.items ≡ map claim_of claims.old.items ++ claims_of alone.now) }
{
    for object in alone {
        claims.push(claim_alone(alloc, *object)?)?;
    }
    Ok(())
}

/// The claims of a program, with those behind them that list one array each.
fn with_claims(alloc: Global, claims: &[Vec<u32>], alone: &[u32]) -> Result<Vec<Vec<u32>>, Memory>
    ensures { IfOk result (λ all. map claim_of all.items ≡ map claim_of claims.now ++ claims_of alone.now) }
{
    let mut all = same_claims(alloc, claims)?;
    add_claims(alloc, alone, &mut all)?;
    Ok(all)
}

/// What a program is made of anew.
#[derive(Drop)]
struct Plan {
    functions: Vec<Function>,
    claims: Vec<Vec<u32>>,
}

fn checked(
    alloc: Global,
    low: &Low,
    alone: &[u32],
    proposals: &[Option<Proposal>],
) -> Result<Option<Plan>, Memory>
    ensures { IfOk result (λ o. IfSome o (λ p. IsStepped (low_of low.now) (program p.functions.items p.claims.items low.now.objects.items low.now.main low.now.marks))) }
{
    if !are_there(low.objects.len(), alone) {
        return Ok(None);
    }
    let around = Around {
        claims: &low.claims,
        alone,
        objects: low.objects.len(),
    };
    let Some(functions) = functions_by(alloc, &around, &low.functions, proposals)? else {
        return Ok(None);
    };
    if !has_room(&functions) {
        return Ok(None);
    }
    if !is_light(alloc, &functions, low.main)? {
        return Ok(None);
    }
    let claims = with_claims(alloc, &low.claims, alone)?;
    Ok(Some(Plan { functions, claims }))
}

fn planned(alloc: Global, low: &Low) -> Result<Option<Plan>, Memory>
    ensures { IfOk result (λ o. IfSome o (λ p. IsStepped (low_of low.now) (program p.functions.items p.claims.items low.now.objects.items low.now.main low.now.marks))) }
{
    let mut alone = Vec::new(alloc);
    let proposals = all_proposed(alloc, low, &mut alone)?;
    if !is_any(&proposals) {
        return Ok(None);
    }
    checked(alloc, low, &alone, &proposals)
}

/// A program with other functions and claims.
fn with_plan(low: Low, plan: Plan) -> Low
    requires steps { IsStepped (low_of low) (program plan.functions.items plan.claims.items low.objects.items low.main low.marks) }
    requires small { room (program plan.functions.items plan.claims.items low.objects.items low.main low.marks) ≤ 2 * room (low_of low) }
    ensures { IsSteppedWithin (low_of low) (low_of result) }
{
    let Low {
        functions,
        claims,
        objects,
        main,
        marks,
    } = low;
    drop(functions);
    drop(claims);
    Low {
        functions: plan.functions,
        claims: plan.claims,
        objects,
        main,
        marks,
    }
}

/// A program as it is.
fn unchanged(low: Low) -> Low
    ensures { IsSteppedWithin (low_of low) (low_of result) }
{
    low
}

/// A program with other functions and claims, where that takes at most twice as much.
fn replaced(low: Low, plan: Plan) -> Low
    requires { IsStepped (low_of low) (program plan.functions.items plan.claims.items low.objects.items low.main low.marks) }
    ensures { IsSteppedWithin (low_of low) (low_of result) }
{
    if is_small_beside(&plan.functions, &low.functions) {
        with_plan(low, plan)
    } else {
        drop(plan);
        unchanged(low)
    }
}

/// A program that reaches elements through pointers that step with indexes, where that is found.
pub fn stepped(alloc: Global, low: Low) -> Result<Low, Memory>
    ensures { IfOk result (λ l. IsSteppedWithin (low_of low) (low_of l)) }
{
    match planned(alloc, &low) {
        Ok(None) => Ok(unchanged(low)),
        Ok(Some(plan)) => Ok(replaced(low, plan)),
        Err(memory) => {
            drop(low);
            Err(memory)
        }
    }
}
