// Programs whose functions have scalars in registers.
ghost use Rattle.std.specs.Prelude.{◌≡◌, ◌+◌, ◌<◌, ◌++◌, ◌^◌, IfOk, length, map};
ghost use Rattle.low_ir.specs.View.{address_of, base_of, block_of, end_of, function_of, instr_of, operand_of};
ghost use Rattle.pass_constant_hoisting.specs.Holding.{opened};
ghost use Rattle.pass_register_promotion_law.specs.Promoting.{closing, keeping, kept_by, loads, promoted_block, promoted_code, promoted_function, promoted_functions, promoted_instr, register_of, resident_at, residents_at, scalar_address, shifted, stores};
ghost use Rattle.pass_register_promotion.specs.Residents.{instead, of_function, resident_in, residents_of};

use super::residents::Resident;
use low_ir::object::Kind;
use low_ir::{Address, Base, Block, End, Function, Instr, Operand};
use low_parts::same::same_instr;
use rv_core::Alu;
use std::alloc::Global;
use wcc_base::Memory;

/// The register of an object, among registers from a first one on.
fn register_of(first: u32, residents: &[Resident], object: u32) -> Option<u32>
    requires { first + length residents.now < 2 ^ 32 }
    ensures { result ≡ register_of first (residents_of residents.now) object }
{
    let mut register = first;
    for other in residents {
        if other.object == object {
            return Some(register);
        }
        register += 1;
    }
    None
}

fn resident_at(first: u32, residents: &[Resident], base: Base) -> Option<u32>
    requires { first + length residents.now < 2 ^ 32 }
    ensures { result ≡ resident_at first (residents_of residents.now) (base_of base) }
{
    match base {
        Base::Object(object) => register_of(first, residents, object),
        Base::Pointer { .. } => None,
    }
}

/// Gives a register the low bits of another one, as an element of fewer bits has them.
fn shifted(
    back: Alu,
    register: u32,
    value: u32,
    bits: u32,
    all: &mut Vec<Instr>,
) -> Result<(), Memory>
    ensures { IfOk result (λ _. map instr_of all.new.items ≡ map instr_of all.old.items ++ shifted back register value bits) }
{
    all.push(Instr::Operate {
        operator: Alu::ShiftLeft,
        into: register,
        left: Operand::Register(value),
        right: Operand::Constant(bits),
    })?;
    all.push(Instr::Operate {
        operator: back,
        into: register,
        left: Operand::Register(register),
        right: Operand::Constant(bits),
    })?;
    Ok(())
}

fn kept_by(kind: Kind, register: u32, value: u32, all: &mut Vec<Instr>) -> Result<(), Memory>
    ensures { IfOk result (λ _. map instr_of all.new.items ≡ map instr_of all.old.items ++ kept_by kind register value) }
{
    match kind {
        Kind::Unsigned8 => {
            all.push(Instr::Operate {
                operator: Alu::BitAnd,
                into: register,
                left: Operand::Register(value),
                right: Operand::Constant(255),
            })?;
            Ok(())
        }
        Kind::Signed8 => shifted(Alu::ShiftRightSigned, register, value, 24, all),
        Kind::Unsigned16 => shifted(Alu::ShiftRight, register, value, 16, all),
        Kind::Signed16 => shifted(Alu::ShiftRightSigned, register, value, 16, all),
        Kind::Word => {
            all.push(Instr::Set {
                into: register,
                value: Operand::Register(value),
            })?;
            Ok(())
        }
    }
}

/// Gives a register what an element of a kind keeps of a word.
fn keeping(kind: Kind, register: u32, value: Operand, all: &mut Vec<Instr>) -> Result<(), Memory>
    ensures { IfOk result (λ _. map instr_of all.new.items ≡ map instr_of all.old.items ++ keeping kind register (operand_of value)) }
{
    match value {
        Operand::Register(other) => kept_by(kind, register, other, all),
        Operand::Constant(word) => {
            all.push(Instr::Set {
                into: register,
                value: Operand::Constant(kind.convert(word)),
            })?;
            Ok(())
        }
    }
}

/// The register that stands for what an instruction accesses, if one does.
fn resident_of_instr(first: u32, residents: &[Resident], instr: &Instr) -> Option<u32>
    requires { first + length residents.now < 2 ^ 32 }
    ensures { result ≡ resident_in first (residents_of residents.now) (instr_of instr.now) }
{
    match instr {
        Instr::Load { address, .. } => resident_at(first, residents, address.base),
        Instr::Store { address, .. } => resident_at(first, residents, address.base),
        _ => None,
    }
}

/// What stands in the place of an access of a scalar with a register.
fn add_by(instr: &Instr, register: u32, all: &mut Vec<Instr>) -> Result<(), Memory>
    ensures { IfOk result (λ _. map instr_of all.new.items ≡ map instr_of all.old.items ++ instead register (instr_of instr.now)) }
{
    match instr {
        Instr::Load { into, .. } => {
            all.push(Instr::Set {
                into: *into,
                value: Operand::Register(register),
            })?;
            Ok(())
        }
        Instr::Store { kind, value, .. } => keeping(*kind, register, *value, all),
        _ => Ok(()),
    }
}

/// What becomes of an instruction, behind others.
fn add_instr(
    alloc: Global,
    first: u32,
    residents: &[Resident],
    instr: &Instr,
    all: &mut Vec<Instr>,
) -> Result<(), Memory>
    requires { first + length residents.now < 2 ^ 32 }
    ensures { IfOk result (λ _. map instr_of all.new.items ≡ map instr_of all.old.items ++ promoted_instr first (residents_of residents.now) (instr_of instr.now)) }
{
    match resident_of_instr(first, residents, instr) {
        None => {
            all.push(same_instr(alloc, instr)?)?;
            Ok(())
        }
        Some(register) => add_by(instr, register, all),
    }
}

/// What becomes of code, behind other instructions.
fn add_code(
    alloc: Global,
    first: u32,
    residents: &[Resident],
    code: &[Instr],
    all: &mut Vec<Instr>,
) -> Result<(), Memory>
    requires { first + length residents.now < 2 ^ 32 }
    ensures { IfOk result (λ _. map instr_of all.new.items ≡ map instr_of all.old.items ++ promoted_code first (residents_of residents.now) (map instr_of code.now)) }
{
    for instr in code {
        add_instr(alloc, first, residents, instr, all)?;
    }
    Ok(())
}

/// The address of a scalar.
fn scalar_address(object: u32) -> Address
    ensures { address_of result ≡ scalar_address object }
{
    Address {
        base: Base::Object(object),
        offset: None,
        displacement: 0,
    }
}

/// Loads scalars into registers from a first one on.
fn loads(alloc: Global, first: u32, residents: &[Resident]) -> Result<Vec<Instr>, Memory>
    requires { first + length residents.now < 2 ^ 32 }
    ensures { IfOk result (λ c. map instr_of c.items ≡ loads first (residents_of residents.now)) }
{
    let mut code = Vec::new(alloc);
    let mut register = first;
    for resident in residents {
        code.push(Instr::Load {
            kind: resident.kind,
            into: register,
            address: scalar_address(resident.object),
        })?;
        register += 1;
    }
    Ok(code)
}

/// Stores those that were written, behind other instructions.
fn add_stores(first: u32, residents: &[Resident], all: &mut Vec<Instr>) -> Result<(), Memory>
    requires { first + length residents.now < 2 ^ 32 }
    ensures { IfOk result (λ _. map instr_of all.new.items ≡ map instr_of all.old.items ++ stores first (residents_of residents.now)) }
{
    let mut register = first;
    for resident in residents {
        if resident.written {
            all.push(Instr::Store {
                kind: resident.kind,
                address: scalar_address(resident.object),
                value: Operand::Register(register),
            })?;
        }
        register += 1;
    }
    Ok(())
}

/// What is done before a block ends, behind other instructions.
fn add_closing(
    first: u32,
    residents: &[Resident],
    end: End,
    all: &mut Vec<Instr>,
) -> Result<(), Memory>
    requires { first + length residents.now < 2 ^ 32 }
    ensures { IfOk result (λ _. map instr_of all.new.items ≡ map instr_of all.old.items ++ closing first (residents_of residents.now) (end_of end)) }
{
    match end {
        End::Jump { .. } => Ok(()),
        End::Branch { .. } => Ok(()),
        End::Return { .. } => add_stores(first, residents, all),
    }
}

/// The code of a block, behind other instructions.
fn add_block(
    alloc: Global,
    first: u32,
    residents: &[Resident],
    block: &Block,
    all: &mut Vec<Instr>,
) -> Result<(), Memory>
    requires { first + length residents.now < 2 ^ 32 }
    ensures { IfOk result (λ _. map instr_of all.new.items ≡ map instr_of all.old.items ++ (promoted_code first (residents_of residents.now) (map instr_of block.now.code.items) ++ closing first (residents_of residents.now) (end_of block.now.end))) }
{
    add_code(alloc, first, residents, &block.code, all)?;
    add_closing(first, residents, block.end, all)
}

/// Blocks behind others.
fn add_blocks(
    alloc: Global,
    first: u32,
    residents: &[Resident],
    blocks: &[Block],
    all: &mut Vec<Block>,
) -> Result<(), Memory>
    requires { first + length residents.now < 2 ^ 32 }
    ensures { IfOk result (λ _. map block_of all.new.items ≡ map block_of all.old.items ++ map (promoted_block first (residents_of residents.now)) (map block_of blocks.now)) }
{
    for block in blocks {
        let mut code = Vec::new(alloc);
        add_block(alloc, first, residents, block, &mut code)?;
        all.push(Block {
            mark: block.mark,
            code,
            end: block.end,
        })?;
    }
    Ok(())
}

/// The first block, which loads the scalars.
fn first_block(
    alloc: Global,
    first: u32,
    residents: &[Resident],
    block: &Block,
) -> Result<Block, Memory>
    requires { first + length residents.now < 2 ^ 32 }
    ensures { IfOk result (λ b. block_of b ≡ record { mark = block.now.mark; code = loads first (residents_of residents.now) ++ (promoted_code first (residents_of residents.now) (map instr_of block.now.code.items) ++ closing first (residents_of residents.now) (end_of block.now.end)); end = end_of block.now.end }) }
{
    let mut code = loads(alloc, first, residents)?;
    add_block(alloc, first, residents, block, &mut code)?;
    Ok(Block {
        mark: block.mark,
        code,
        end: block.end,
    })
}

fn promoted_blocks(
    alloc: Global,
    first: u32,
    residents: &[Resident],
    blocks: &[Block],
) -> Result<Vec<Block>, Memory>
    requires { first + length residents.now < 2 ^ 32 }
    ensures { IfOk result (λ b. map block_of b.items ≡ opened (loads first (residents_of residents.now)) (map (promoted_block first (residents_of residents.now)) (map block_of blocks.now))) }
{
    let mut made = Vec::new(alloc);
    let Some((block, rest)) = blocks.split_first() else {
        return Ok(made);
    };
    made.push(first_block(alloc, first, residents, block)?)?;
    add_blocks(alloc, first, residents, rest, &mut made)?;
    Ok(made)
}

/// A function with scalars in registers; one with more than 2^32 registers would not fit in memory.
pub fn promoted_function(
    alloc: Global,
    residents: &[Resident],
    function: &Function,
) -> Result<Function, Memory>
    ensures { IfOk result (λ f. function_of f ≡ promoted_function (residents_of residents.now) (function_of function.now)) }
{
    let first = function.registers;
    let Ok(more) = u32::try_from(residents.len()) else {
        return Err(Memory);
    };
    let Some(registers) = first.checked_add(more) else {
        return Err(Memory);
    };
    Ok(Function {
        parameters: Vec::from_slice(alloc, &function.parameters)?,
        registers,
        loops: Vec::from_slice(alloc, &function.loops)?,
        blocks: promoted_blocks(alloc, first, residents, &function.blocks)?,
    })
}

/// By function: its scalars.
pub fn residents_at(residents: &[Vec<Resident>], f: usize) -> &[Resident]
    ensures { residents_of result.now ≡ residents_at (map of_function residents.now) f }
{
    match residents.get(f) {
        None => &[],
        Some(own) => own,
    }
}

/// Functions with scalars in registers.
pub fn promoted_functions(
    alloc: Global,
    residents: &[Vec<Resident>],
    functions: &[Function],
) -> Result<Vec<Function>, Memory>
    ensures { IfOk result (λ f. map function_of f.items ≡ promoted_functions (map of_function residents.now) 0 (map function_of functions.now)) }
{
    let mut made = Vec::new(alloc);
    let mut number = 0;
    for function in functions {
        made.push(promoted_function(alloc, residents_at(residents, number), function)?)?;
        number += 1;
    }
    Ok(made)
}
