// Instructions that read where values stand.
ghost use Rattle.std.specs.Prelude.{◌≡◌, ℕ, Some, true, map, IfOk, IfSome};
ghost use Rattle.low_ir.specs.Code.{Do, Set, Operate, Point, Load, Store, Put, Call};
ghost use Rattle.low_ir.specs.Formed.{written_by};
ghost use Rattle.low_ir.specs.View.{address_of, base_of, end_of, instr_of, operand_of};
ghost use Rattle.pass_copy_propagation_law.specs.Copies.{WritesOnly};
ghost use Rattle.pass_copy_propagation_law.specs.Renaming.{renamed_into};
ghost use Rattle.pass_copy_propagation.specs.Making.{AreOperands, IsAddress, IsBase, IsEnd, IsOffset, IsOperand, IsRenamed};

use super::known::Known;
use low_ir::instruction::{Address, Base, End, Instr, Operand};
use low_ir::object::Kind;
use low_parts::accesses::written;
use rv_core::Alu;
use std::alloc::Global;
use wcc_base::Memory;

/// The register that an instruction writes, if it does nothing else.
pub fn only_written(instr: &Instr) -> Option<u32>
    ensures { IfSome result (WritesOnly (instr_of instr.now)) }
{
    match instr {
        Instr::Set { into, .. } => Some(*into),
        Instr::Operate { into, .. } => Some(*into),
        Instr::Point { into, .. } => Some(*into),
        Instr::Load { into, .. } => Some(*into),
        Instr::Store { .. } => None,
        Instr::Put { .. } => None,
        Instr::Get { .. } => None,
        Instr::Call { .. } => None,
    }
}

/// Whether an instruction writes this register.
pub fn writes(instr: &Instr, register: u32) -> bool
    ensures { result ≡ true → written_by (instr_of instr.now) ≡ Some register }
{
    match written(instr) {
        None => false,
        Some(into) => into == register,
    }
}

/// An operand where it stands.
fn renamed_operand(known: &Known, operand: Operand) -> Option<Operand>
    ensures { IfSome result (λ y. IsOperand known.now (operand_of operand) (operand_of y)) }
{
    match operand {
        Operand::Register(register) => match known.find(register) {
            None => None,
            Some(place) => Some(Operand::Register(place)),
        },
        Operand::Constant(word) => Some(Operand::Constant(word)),
    }
}

/// The base of an address: a pointer stands in its own register.
fn renamed_base(known: &Known, base: Base) -> Option<Base>
    ensures { IfSome result (λ b. IsBase known.now (base_of base) (base_of b)) }
{
    match base {
        Base::Object(object) => Some(Base::Object(object)),
        Base::Pointer { register, claim } => match known.find(register) {
            None => None,
            Some(place) => {
                if place == register {
                    Some(Base::Pointer { register, claim })
                } else {
                    None
                }
            }
        },
    }
}

fn renamed_offset(known: &Known, offset: Option<u32>) -> Option<Option<u32>>
    ensures { IfSome result (λ o. IsOffset known.now offset o) }
{
    match offset {
        None => Some(None),
        Some(register) => match known.find(register) {
            None => None,
            Some(place) => Some(Some(place)),
        },
    }
}

fn renamed_address(known: &Known, address: Address) -> Option<Address>
    ensures { IfSome result (λ a. IsAddress known.now (address_of address) (address_of a)) }
{
    let Some(base) = renamed_base(known, address.base) else {
        return None;
    };
    let Some(offset) = renamed_offset(known, address.offset) else {
        return None;
    };
    Some(Address {
        base,
        offset,
        displacement: address.displacement,
    })
}

/// A copy, or a constant, to this register.
fn renamed_set(known: &Known, into: u32, value: Operand) -> Option<Instr>
    ensures { IfSome result (λ j. (d : ℕ) → IsRenamed known.now into (Do (Set d (operand_of value))) (instr_of j)) }
{
    let Some(value) = renamed_operand(known, value) else {
        return None;
    };
    Some(Instr::Set { into, value })
}

fn renamed_operate(
    known: &Known,
    into: u32,
    operator: Alu,
    left: Operand,
    right: Operand,
) -> Option<Instr>
    ensures { IfSome result (λ j. (d : ℕ) → IsRenamed known.now into (Do (Operate operator d (operand_of left) (operand_of right))) (instr_of j)) }
{
    let Some(left) = renamed_operand(known, left) else {
        return None;
    };
    let Some(right) = renamed_operand(known, right) else {
        return None;
    };
    Some(Instr::Operate {
        operator,
        into,
        left,
        right,
    })
}

fn renamed_point(known: &Known, into: u32, address: Address) -> Option<Instr>
    ensures { IfSome result (λ j. (d : ℕ) → IsRenamed known.now into (Do (Point d (address_of address))) (instr_of j)) }
{
    let Some(address) = renamed_address(known, address) else {
        return None;
    };
    Some(Instr::Point { into, address })
}

fn renamed_load(known: &Known, into: u32, kind: Kind, address: Address) -> Option<Instr>
    ensures { IfSome result (λ j. (d : ℕ) → IsRenamed known.now into (Do (Load kind d (address_of address))) (instr_of j)) }
{
    let Some(address) = renamed_address(known, address) else {
        return None;
    };
    Some(Instr::Load {
        kind,
        into,
        address,
    })
}

fn renamed_store(known: &Known, kind: Kind, address: Address, value: Operand) -> Option<Instr>
    ensures { IfSome result (λ j. (e : ℕ) → IsRenamed known.now e (Do (Store kind (address_of address) (operand_of value))) (instr_of j)) }
{
    let Some(address) = renamed_address(known, address) else {
        return None;
    };
    let Some(value) = renamed_operand(known, value) else {
        return None;
    };
    Some(Instr::Store {
        kind,
        address,
        value,
    })
}

fn renamed_put(known: &Known, value: Operand) -> Option<Instr>
    ensures { IfSome result (λ j. (e : ℕ) → IsRenamed known.now e (Do (Put (operand_of value))) (instr_of j)) }
{
    let Some(value) = renamed_operand(known, value) else {
        return None;
    };
    Some(Instr::Put { value })
}

/// The arguments of a call.
fn renamed_arguments(
    alloc: Global,
    known: &Known,
    arguments: &[Operand],
) -> Result<Option<Vec<Operand>>, Memory>
    ensures { IfOk result (λ o. IfSome o (λ ys. AreOperands known.now (map operand_of arguments.now) (map operand_of ys.items))) }
{
    let mut renamed = Vec::new(alloc);
    for argument in arguments {
        let Some(operand) = renamed_operand(known, *argument) else {
            return Ok(None);
        };
        renamed.push(operand)?;
    }
    Ok(Some(renamed))
}

/// The register that gets the value of a call, if it is wanted.
fn into_of(into: Option<u32>, place: u32) -> Option<u32>
    ensures { result ≡ renamed_into place into }
{
    match into {
        None => None,
        Some(_) => Some(place),
    }
}

fn renamed_call(
    alloc: Global,
    known: &Known,
    into: Option<u32>,
    place: u32,
    function: u32,
    arguments: &[Operand],
) -> Result<Option<Instr>, Memory>
    ensures { IfOk result (λ o. IfSome o (λ j. IsRenamed known.now place (Call into function (map operand_of arguments.now) tt) (instr_of j))) }
{
    let Some(arguments) = renamed_arguments(alloc, known, arguments)? else {
        return Ok(None);
    };
    Ok(Some(Instr::Call {
        function,
        arguments,
        into: into_of(into, place),
    }))
}

/// An instruction that reads where values stand, and writes to this register.
pub fn renamed(
    alloc: Global,
    known: &Known,
    into: u32,
    instr: &Instr,
) -> Result<Option<Instr>, Memory>
    ensures { IfOk result (λ o. IfSome o (λ j. IsRenamed known.now into (instr_of instr.now) (instr_of j))) }
{
    match instr {
        Instr::Set { value, .. } => Ok(renamed_set(known, into, *value)),
        Instr::Operate {
            operator,
            left,
            right,
            ..
        } => Ok(renamed_operate(known, into, *operator, *left, *right)),
        Instr::Point { address, .. } => Ok(renamed_point(known, into, *address)),
        Instr::Load { kind, address, .. } => Ok(renamed_load(known, into, *kind, *address)),
        Instr::Store {
            kind,
            address,
            value,
        } => Ok(renamed_store(known, *kind, *address, *value)),
        Instr::Put { value } => Ok(renamed_put(known, *value)),
        Instr::Get { .. } => Ok(Some(Instr::Get { into })),
        Instr::Call {
            function,
            arguments,
            into: old,
        } => renamed_call(alloc, known, *old, into, *function, arguments),
    }
}

/// The end of a block.
pub fn renamed_end(known: &Known, end: End) -> Option<End>
    ensures { IfSome result (λ new. IsEnd known.now (end_of end) (end_of new)) }
{
    match end {
        End::Jump { block } => Some(End::Jump { block }),
        End::Branch {
            condition,
            left,
            right,
            taken,
            other,
        } => {
            let Some(left) = renamed_operand(known, left) else {
                return None;
            };
            let Some(right) = renamed_operand(known, right) else {
                return None;
            };
            Some(End::Branch {
                condition,
                left,
                right,
                taken,
                other,
            })
        }
        End::Return { value } => {
            let Some(value) = renamed_operand(known, value) else {
                return None;
            };
            Some(End::Return { value })
        }
    }
}
