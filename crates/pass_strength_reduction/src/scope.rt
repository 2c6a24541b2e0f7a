// What the check of a function takes from its program.
ghost use Rattle.std.specs.Prelude.{◌≡◌, ℕ, ◌++◌, ◌∷◌, [], ◌<◌, map, true, All, IfOk, IfSome};
ghost use Rattle.low_ir.specs.Code.{Address};
ghost use Rattle.low_ir.specs.Formed.{addresses};
ghost use Rattle.low_ir.specs.View.{base_of, claim_of, instr_of};
ghost use Rattle.pass_strength_reduction_law.specs.Steps.{claims_of};
ghost use Rattle.pass_strength_reduction.specs.Making.{CanBegin, IsPlacedWell};
ghost use Rattle.pass_strength_reduction.specs.Scenes.{ListsAlone};

use super::registers::are_within;
use low_ir::Instr;
use low_ir::instruction::Base;
use std::alloc::Global;
use wcc_base::Memory;

/// The program of a function, and its registers.
#[derive(Clone, Copy)]
pub struct Scope<'a> {
    pub claims: &'a [Vec<u32>],
    /// By claim behind these, the array that it lists alone.
    pub alone: &'a [u32],
    /// How many arrays there are.
    pub objects: usize,
    /// How many registers the function has.
    pub registers: u32,
    /// By register, whether the function nowhere names it.
    pub spare: &'a [bool],
}

fn sole(list: &[u32]) -> Option<u32>
    ensures { IfSome result (λ o. list.now ≡ o ∷ []) }
{
    if list.len() == 1 { Some(list[0]) } else { None }
}

/// The object that a claim lists alone.
pub fn only_one(scope: &Scope, claim: u32) -> Option<u32>
    ensures { IfSome result (ListsAlone (map claim_of scope.now.claims.now ++ claims_of scope.now.alone.now) claim) }
{
    let at = claim as usize;
    let before = scope.claims.len();
    if at < before {
        return sole(&scope.claims[at]);
    }
    match scope.alone.get(at - before) {
        None => None,
        Some(object) => Some(*object),
    }
}

fn can_begin(scope: &Scope, base: Base) -> bool
    ensures { result ≡ true → CanBegin scope.now.objects (map claim_of scope.now.claims.now ++ claims_of scope.now.alone.now) (base_of base) }
{
    match base {
        Base::Object(object) => (object as usize) < scope.objects,
        Base::Pointer { claim, .. } => only_one(scope, claim).is_some(),
    }
}

/// Whether a new instruction names registers, arrays and claims that are there, and begins where new ones may.
pub fn is_placed(alloc: Global, scope: &Scope, instr: &Instr) -> Result<bool, Memory>
    ensures { IfOk result (λ b. b ≡ true → IsPlacedWell scope.now.registers scope.now.objects (map claim_of scope.now.claims.now ++ claims_of scope.now.alone.now) (instr_of instr.now)) }
{
    if !begins(scope, instr) {
        return Ok(false);
    }
    are_within(alloc, scope.registers, instr)
}

fn begins(scope: &Scope, instr: &Instr) -> bool
    ensures { result ≡ true → All (λ (a : Address ℕ). CanBegin scope.now.objects (map claim_of scope.now.claims.now ++ claims_of scope.now.alone.now) a.base) (addresses (instr_of instr.now)) }
{
    match instr {
        Instr::Point { address, .. } => can_begin(scope, address.base),
        Instr::Load { address, .. } => can_begin(scope, address.base),
        Instr::Store { address, .. } => can_begin(scope, address.base),
        _ => true,
    }
}
