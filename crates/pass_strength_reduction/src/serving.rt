// When an access through a register does what the old one does.
ghost use Rattle.std.specs.Prelude.{◌≡◌, ◌++◌, Some, None, map, slice_index_or, true, IfSome};
ghost use Rattle.low_ir.specs.Code.{Through};
ghost use Rattle.low_ir.specs.View.{address_of, claim_of, instr_of};
ghost use Rattle.pass_strength_reduction_law.specs.Steps.{claims_of};
ghost use Rattle.pass_dataflow_facts.specs.declared.facts.Origin.TheVariants.{Object};
ghost use Rattle.pass_dataflow_facts.specs.Facts.{is_from};
ghost use Rattle.pass_dataflow_transfer.specs.Learning.{Sure};
ghost use Rattle.pass_strength_reduction.specs.Scenes.{ListsAlone};
ghost use Rattle.pass_strength_reduction.specs.Making.{LeadAlike, Serves, Stands};

use super::scope::{Scope, only_one};
use low_ir::Instr;
use low_ir::instruction::{Address, Base};
use pass_dataflow_facts::{Fact, Origin};
use pass_dataflow_transfer::passing::{base_origin, form_there};
use pass_dataflow_transfer::reading::{agree, origin_of};

/// The array into which an origin says that a register points.
fn object_in(origin: Origin) -> Option<u32>
    ensures { IfSome result (λ o. origin ≡ Object o) }
{
    match origin {
        Origin::Object(object) => Some(object),
        _ => None,
    }
}

/// The array of a pointer, if its claim lists that alone.
pub fn array_of(scope: &Scope, facts: &[Fact], register: u32, claim: u32) -> Option<u32>
    ensures points { IfSome result (λ o. Sure facts.now (λ s. is_from (Object o) (slice_index_or s register None) ≡ true)) }
    ensures lists { IfSome result (ListsAlone (map claim_of scope.now.claims.now ++ claims_of scope.now.alone.now) claim) }
{
    match object_in(origin_of(facts, register)) {
        None => None,
        Some(object) => match only_one(scope, claim) {
            None => None,
            Some(listed) => { if listed == object { Some(object) } else { None } }
        },
    }
}

/// Whether two addresses surely are so many bytes behind the beginnings of their arrays.
fn lead_alike(facts: &[Fact], old: Address, new: Address) -> bool
    ensures { result ≡ true → LeadAlike facts.now (address_of old) (address_of new) }
{
    match form_there(facts, old) {
        None => false,
        Some(before) => match form_there(facts, new) {
            None => false,
            Some(now) => agree(facts, now, before),
        },
    }
}

/// A register with a claim, and a displacement.
#[derive(Clone, Copy)]
pub struct Way {
    pub register: u32,
    pub claim: u32,
    pub displacement: u32,
}

impl Way {
    fn address(self) -> Address
        ensures { address_of result ≡ record { base = Through self.register self.claim; offset = None; displacement = self.displacement } }
    {
        Address {
            base: Base::Pointer {
                register: self.register,
                claim: self.claim,
            },
            offset: None,
            displacement: self.displacement,
        }
    }
}

/// The address by a way, if that surely leads where another one leads.
fn served(scope: &Scope, facts: &[Fact], old: Address, way: Way) -> Option<Address>
    ensures { IfSome result (λ b. Sure facts.now (Serves (map claim_of scope.now.claims.now ++ claims_of scope.now.alone.now) (address_of old) (address_of b))) }
{
    let new = way.address();
    let Some(object) = object_in(base_origin(facts, old.base)) else {
        return None;
    };
    let Some(there) = array_of(scope, facts, way.register, way.claim) else {
        return None;
    };
    if there == object && lead_alike(facts, old, new) {
        Some(new)
    } else {
        None
    }
}

/// An access that goes another way, if it surely does the same.
pub fn through(scope: &Scope, facts: &[Fact], instr: &Instr, way: Way) -> Option<Instr>
    ensures { IfSome result (λ j. Stands (map claim_of scope.now.claims.now ++ claims_of scope.now.alone.now) facts.now (instr_of instr.now) (instr_of j)) }
{
    match instr {
        Instr::Point { into, address } => match served(scope, facts, *address, way) {
            None => None,
            Some(new) => Some(Instr::Point {
                into: *into,
                address: new,
            }),
        },
        Instr::Load {
            kind,
            into,
            address,
        } => match served(scope, facts, *address, way) {
            None => None,
            Some(new) => Some(Instr::Load {
                kind: *kind,
                into: *into,
                address: new,
            }),
        },
        Instr::Store {
            kind,
            address,
            value,
        } => match served(scope, facts, *address, way) {
            None => None,
            Some(new) => Some(Instr::Store {
                kind: *kind,
                address: new,
                value: *value,
            }),
        },
        _ => None,
    }
}
