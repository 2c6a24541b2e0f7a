// Instructions that come besides.
ghost use Rattle.std.specs.Prelude.{◌≡◌, ◌++◌, map, true};
ghost use Rattle.low_ir.specs.View.{base_of, claim_of, instr_of, operand_of};
ghost use Rattle.pass_strength_reduction_law.specs.Steps.{claims_of};
ghost use Rattle.pass_dataflow_transfer.specs.Learning.{Sure};
ghost use Rattle.pass_strength_reduction.specs.Making.{HasBeginning, HoldsValue, IsAdded, IsSure};

use super::scope::Scope;
use super::serving::array_of;
use low_ir::instruction::{Address, Base};
use low_ir::{Instr, Operand};
use pass_dataflow_facts::{Fact, Origin};
use pass_dataflow_transfer::reading::{holds_word, origin_of};

/// Whether an operand surely holds something.
fn holds_value(facts: &[Fact], operand: Operand) -> bool
    ensures { result ≡ true → Sure facts.now (HoldsValue (operand_of operand)) }
{
    match operand {
        Operand::Register(register) => match origin_of(facts, register) {
            Origin::Any => false,
            Origin::Word => true,
            Origin::Small => true,
            Origin::Object(_) => true,
        },
        Operand::Constant(_) => true,
    }
}

fn is_added(facts: &[Fact], offset: Option<u32>) -> bool
    ensures { result ≡ true → Sure facts.now (IsAdded offset) }
{
    match offset {
        None => true,
        Some(register) => holds_word(facts, Operand::Register(register)),
    }
}

fn begins(scope: &Scope, facts: &[Fact], base: Base) -> bool
    ensures { result ≡ true → Sure facts.now (HasBeginning (map claim_of scope.now.claims.now ++ claims_of scope.now.alone.now) (base_of base)) }
{
    match base {
        Base::Object(_) => true,
        Base::Pointer { register, claim } => match array_of(scope, facts, register, claim) {
            None => false,
            Some(_) => true,
        },
    }
}

/// Whether an address surely leads into its array, or behind it.
fn leads(scope: &Scope, facts: &[Fact], address: Address) -> bool
    ensures base { result ≡ true → Sure facts.now (HasBeginning (map claim_of scope.now.claims.now ++ claims_of scope.now.alone.now) (base_of address.base)) }
    ensures offset { result ≡ true → Sure facts.now (IsAdded address.offset) }
{
    begins(scope, facts, address.base) && is_added(facts, address.offset)
}

/// Whether an instruction surely gives a value, and does nothing else.
pub fn is_sure(scope: &Scope, facts: &[Fact], instr: &Instr) -> bool
    ensures { result ≡ true → IsSure (map claim_of scope.now.claims.now ++ claims_of scope.now.alone.now) facts.now (instr_of instr.now) }
{
    match instr {
        Instr::Set { value, .. } => holds_value(facts, *value),
        Instr::Operate { left, right, .. } => {
            holds_word(facts, *left) && holds_word(facts, *right)
        }
        Instr::Point { address, .. } => leads(scope, facts, *address),
        _ => false,
    }
}
