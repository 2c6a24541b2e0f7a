// Which registers instructions name.
ghost use Rattle.std.specs.Prelude.{◌≡◌, ◌<◌, ◌++◌, ◌∷◌, [], true, All, map, option_to_list, IfOk};
ghost use Rattle.low_ir.specs.Effects.{address_reads, offset_reads};
ghost use Rattle.low_ir.specs.Formed.{RegistersWithin, end_reads, read_by, registers_in};
ghost use Rattle.low_ir.specs.View.{address_of, block_of, end_of, instr_of, operand_of};
ghost use Rattle.pass_strength_reduction_law.specs.Steps.{BlockNamesNoSpare, IsNamed, NamesNoSpare};
ghost use Rattle.pass_strength_reduction.specs.Scenes.{is_spare};

use low_ir::instruction::{Address, Base};
use low_ir::{Block, End, Instr, Operand};
use low_parts::accesses::written;
use std::alloc::Global;
use wcc_base::Memory;

fn add_operand(operand: Operand, all: &mut Vec<u32>) -> Result<(), Memory>
    ensures { IfOk result (λ _. all.new.items ≡ all.old.items ++ registers_in (operand_of operand ∷ [])) }
{
    match operand {
        Operand::Register(register) => Ok(all.push(register)?),
        Operand::Constant(_) => Ok(()),
    }
}

fn add_operands(operands: &[Operand], all: &mut Vec<u32>) -> Result<(), Memory>
    ensures { IfOk result (λ _. all.new.items ≡ all.old.items ++ registers_in (map operand_of operands.now)) }
{
    for operand in operands {
        add_operand(*operand, all)?;
    }
    Ok(())
}

fn add_offset(offset: Option<u32>, all: &mut Vec<u32>) -> Result<(), Memory>
    ensures { IfOk result (λ _. all.new.items ≡ all.old.items ++ registers_in (offset_reads offset)) }
{
    match offset {
        None => Ok(()),
        Some(register) => Ok(all.push(register)?),
    }
}

fn add_address(address: Address, all: &mut Vec<u32>) -> Result<(), Memory>
    ensures { IfOk result (λ _. all.new.items ≡ all.old.items ++ registers_in (address_reads (address_of address))) }
{
    match address.base {
        Base::Object(_) => add_offset(address.offset, all),
        Base::Pointer { register, .. } => {
            all.push(register)?;
            add_offset(address.offset, all)
        }
    }
}

fn two(alloc: Global, left: Operand, right: Operand) -> Result<Vec<u32>, Memory>
    ensures { IfOk result (λ all. all.items ≡ registers_in (operand_of left ∷ operand_of right ∷ [])) }
{
    let mut all = Vec::new(alloc);
    add_operand(left, &mut all)?;
    add_operand(right, &mut all)?;
    Ok(all)
}

fn one(alloc: Global, operand: Operand) -> Result<Vec<u32>, Memory>
    ensures { IfOk result (λ all. all.items ≡ registers_in (operand_of operand ∷ [])) }
{
    let mut all = Vec::new(alloc);
    add_operand(operand, &mut all)?;
    Ok(all)
}

fn of_address(alloc: Global, address: Address) -> Result<Vec<u32>, Memory>
    ensures { IfOk result (λ all. all.items ≡ registers_in (address_reads (address_of address))) }
{
    let mut all = Vec::new(alloc);
    add_address(address, &mut all)?;
    Ok(all)
}

fn of_store(alloc: Global, value: Operand, address: Address) -> Result<Vec<u32>, Memory>
    ensures { IfOk result (λ all. all.items ≡ registers_in (operand_of value ∷ address_reads (address_of address))) }
{
    let mut all = Vec::new(alloc);
    add_operand(value, &mut all)?;
    add_address(address, &mut all)?;
    Ok(all)
}

fn of_call(alloc: Global, arguments: &[Operand]) -> Result<Vec<u32>, Memory>
    ensures { IfOk result (λ all. all.items ≡ registers_in (map operand_of arguments.now)) }
{
    let mut all = Vec::new(alloc);
    add_operands(arguments, &mut all)?;
    Ok(all)
}

/// The registers that an instruction reads.
fn reads(alloc: Global, instr: &Instr) -> Result<Vec<u32>, Memory>
    ensures { IfOk result (λ all. all.items ≡ read_by (instr_of instr.now)) }
{
    match instr {
        Instr::Set { value, .. } => one(alloc, *value),
        Instr::Operate { left, right, .. } => two(alloc, *left, *right),
        Instr::Point { address, .. } => of_address(alloc, *address),
        Instr::Load { address, .. } => of_address(alloc, *address),
        Instr::Store { address, value, .. } => of_store(alloc, *value, *address),
        Instr::Put { value } => one(alloc, *value),
        Instr::Get { .. } => Ok(Vec::new(alloc)),
        Instr::Call { arguments, .. } => of_call(alloc, arguments),
    }
}

fn of_end(alloc: Global, end: End) -> Result<Vec<u32>, Memory>
    ensures { IfOk result (λ all. all.items ≡ end_reads (end_of end)) }
{
    match end {
        End::Jump { .. } => Ok(Vec::new(alloc)),
        End::Branch { left, right, .. } => two(alloc, left, right),
        End::Return { value } => one(alloc, value),
    }
}

fn are_below(registers: u32, all: &[u32]) -> bool
    ensures { result ≡ true → All (λ r. r < registers) all.now }
{
    for register in all {
        if *register >= registers {
            return false;
        }
    }
    true
}

fn is_below(registers: u32, written: Option<u32>) -> bool
    ensures { result ≡ true → All (λ r. r < registers) (option_to_list written) }
{
    match written {
        None => true,
        Some(register) => register < registers,
    }
}

/// Whether the registers of an instruction are those of a function.
pub fn are_within(alloc: Global, registers: u32, instr: &Instr) -> Result<bool, Memory>
    ensures { IfOk result (λ b. b ≡ true → RegistersWithin registers (instr_of instr.now)) }
{
    let read = reads(alloc, instr)?;
    Ok(are_below(registers, &read) && is_below(registers, written(instr)))
}

/// Whether a register is spare.
pub fn is_spare(spare: &[bool], register: u32) -> bool
    ensures { result ≡ is_spare spare.now register }
{
    match spare.get(register as usize) {
        None => false,
        Some(flag) => *flag,
    }
}

fn are_named(spare: &[bool], all: &[u32]) -> bool
    ensures { result ≡ true → All (IsNamed (is_spare spare.now)) all.now }
{
    for register in all {
        if is_spare(spare, *register) {
            return false;
        }
    }
    true
}

fn is_named(spare: &[bool], written: Option<u32>) -> bool
    ensures { result ≡ true → All (IsNamed (is_spare spare.now)) (option_to_list written) }
{
    match written {
        None => true,
        Some(register) => !is_spare(spare, register),
    }
}

/// Whether an instruction names no spare register.
fn names_none(alloc: Global, spare: &[bool], instr: &Instr) -> Result<bool, Memory>
    ensures { IfOk result (λ b. b ≡ true → NamesNoSpare (is_spare spare.now) (instr_of instr.now)) }
{
    let read = reads(alloc, instr)?;
    Ok(are_named(spare, &read) && is_named(spare, written(instr)))
}

fn code_names_none(alloc: Global, spare: &[bool], code: &[Instr]) -> Result<bool, Memory>
    ensures { IfOk result (λ b. b ≡ true → All (NamesNoSpare (is_spare spare.now)) (map instr_of code.now)) }
{
    for instr in code {
        if !names_none(alloc, spare, instr)? {
            return Ok(false);
        }
    }
    Ok(true)
}

fn block_names_none(alloc: Global, spare: &[bool], block: &Block) -> Result<bool, Memory>
    ensures { IfOk result (λ b. b ≡ true → BlockNamesNoSpare (is_spare spare.now) (block_of block.now)) }
{
    let read = of_end(alloc, block.end)?;
    if !are_named(spare, &read) {
        return Ok(false);
    }
    code_names_none(alloc, spare, &block.code)
}

/// Whether blocks name no spare register.
pub fn name_none(alloc: Global, spare: &[bool], blocks: &[Block]) -> Result<bool, Memory>
    ensures { IfOk result (λ b. b ≡ true → All (BlockNamesNoSpare (is_spare spare.now)) (map block_of blocks.now)) }
{
    for block in blocks {
        if !block_names_none(alloc, spare, block)? {
            return Ok(false);
        }
    }
    Ok(true)
}
