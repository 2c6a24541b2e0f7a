// The reads and writes of each register.
ghost use Rattle.std.specs.Prelude.{◌≡◌, ◌+◌, ◌<◌, ◌^◌, ◌∷◌, [], false, true, length, map, replicate, IfOk, slice_index_or};
ghost use Rattle.low_ir.specs.Effects.{address_reads, base_reads, offset_reads};
ghost use Rattle.low_ir.specs.Formed.{end_reads, read_by, registers_in};
ghost use Rattle.low_ir.specs.View.{address_of, base_of, block_of, end_of, function_of, instr_of, operand_of};
ghost use Rattle.register_live_ranges.specs.Accesses.{access_at, blocks_noted, code_noted, instr_noted, places_in, reads_noted, write_noted};
ghost use Rattle.register_live_ranges.specs.Found.{accesses_of};
ghost use Rattle.register_live_ranges.specs.Rows.{rows_of, with_item};

use low_ir::instruction::{Address, Base, End, Instr, Operand};
use low_ir::{Block, Function};
use low_parts::accesses::written;
use std::alloc::Global;
use wcc_base::Memory;

/// A read or a write of a register: the number of its block, and the places where the block begins and where it is.
#[derive(Clone, Copy)]
pub struct Access {
    pub block: usize,
    pub first: usize,
    pub at: usize,
    pub writes: bool,
}

/// By register, its reads and writes.
pub type Rows = Vec<Vec<Access>>;

fn put(rows: &mut Rows, register: u32, access: Access) -> Result<(), Memory>
    ensures { IfOk result (λ _. rows_of rows.new.items ≡ with_item (rows_of rows.old.items) register access) }
{
    match rows.get_mut(register as usize) {
        None => Ok(()),
        Some(row) => Ok(row.push(access)?),
    }
}

fn put_operand(rows: &mut Rows, operand: Operand, access: Access) -> Result<(), Memory>
    ensures { IfOk result (λ _. rows_of rows.new.items ≡ reads_noted (rows_of rows.old.items) access (registers_in (operand_of operand ∷ []))) }
{
    match operand {
        Operand::Register(register) => Ok(put(rows, register, access)?),
        Operand::Constant(_) => Ok(()),
    }
}

#[tactic(auto, using(crate::proofs::Noting::reads_two))]
fn put_operands(
    rows: &mut Rows,
    left: Operand,
    right: Operand,
    access: Access,
) -> Result<(), Memory>
    ensures { IfOk result (λ _. rows_of rows.new.items ≡ reads_noted (rows_of rows.old.items) access (registers_in (operand_of left ∷ operand_of right ∷ []))) }
{
    put_operand(rows, left, access)?;
    put_operand(rows, right, access)?;
    Ok(())
}

#[tactic(auto, using(crate::proofs::Noting::reads_more))]
fn put_arguments(rows: &mut Rows, operands: &[Operand], access: Access) -> Result<(), Memory>
    ensures { IfOk result (λ _. rows_of rows.new.items ≡ reads_noted (rows_of rows.old.items) access (registers_in (map operand_of operands.now))) }
{
    for operand in operands {
        put_operand(rows, *operand, access)?;
    }
    Ok(())
}

fn put_base(rows: &mut Rows, base: Base, access: Access) -> Result<(), Memory>
    ensures { IfOk result (λ _. rows_of rows.new.items ≡ reads_noted (rows_of rows.old.items) access (registers_in (base_reads (base_of base)))) }
{
    match base {
        Base::Object(_) => Ok(()),
        Base::Pointer { register, .. } => Ok(put(rows, register, access)?),
    }
}

fn put_offset(rows: &mut Rows, offset: Option<u32>, access: Access) -> Result<(), Memory>
    ensures { IfOk result (λ _. rows_of rows.new.items ≡ reads_noted (rows_of rows.old.items) access (registers_in (offset_reads offset))) }
{
    match offset {
        None => Ok(()),
        Some(register) => Ok(put(rows, register, access)?),
    }
}

#[tactic(auto, using(crate::proofs::Noting::reads_append))]
fn put_address(rows: &mut Rows, address: Address, access: Access) -> Result<(), Memory>
    ensures { IfOk result (λ _. rows_of rows.new.items ≡ reads_noted (rows_of rows.old.items) access (registers_in (address_reads (address_of address)))) }
{
    put_base(rows, address.base, access)?;
    put_offset(rows, address.offset, access)?;
    Ok(())
}

#[tactic(auto, using(crate::proofs::Noting::reads_more))]
fn put_stored(
    rows: &mut Rows,
    value: Operand,
    address: Address,
    access: Access,
) -> Result<(), Memory>
    ensures { IfOk result (λ _. rows_of rows.new.items ≡ reads_noted (rows_of rows.old.items) access (registers_in (operand_of value ∷ address_reads (address_of address)))) }
{
    put_operand(rows, value, access)?;
    put_address(rows, address, access)?;
    Ok(())
}

/// The reads of an instruction.
fn put_reads(rows: &mut Rows, instr: &Instr, access: Access) -> Result<(), Memory>
    ensures { IfOk result (λ _. rows_of rows.new.items ≡ reads_noted (rows_of rows.old.items) access (read_by (instr_of instr.now))) }
{
    match instr {
        Instr::Set { value, .. } => Ok(put_operand(rows, *value, access)?),
        Instr::Operate { left, right, .. } => Ok(put_operands(rows, *left, *right, access)?),
        Instr::Point { address, .. } => Ok(put_address(rows, *address, access)?),
        Instr::Load { address, .. } => Ok(put_address(rows, *address, access)?),
        Instr::Store { address, value, .. } => Ok(put_stored(rows, *value, *address, access)?),
        Instr::Put { value } => Ok(put_operand(rows, *value, access)?),
        Instr::Get { .. } => Ok(()),
        Instr::Call { arguments, .. } => Ok(put_arguments(rows, arguments, access)?),
    }
}

fn put_written(rows: &mut Rows, register: Option<u32>, access: Access) -> Result<(), Memory>
    ensures { IfOk result (λ _. rows_of rows.new.items ≡ write_noted (rows_of rows.old.items) access register) }
{
    match register {
        None => Ok(()),
        Some(register) => Ok(put(rows, register, access)?),
    }
}

/// A read, or a write, at a place of a block.
fn access_at(block: usize, first: usize, at: usize, writes: bool) -> Access
    ensures { result ≡ access_at block first at writes }
{
    Access {
        block,
        first,
        at,
        writes,
    }
}

fn put_instr(
    rows: &mut Rows,
    block: usize,
    first: usize,
    at: usize,
    instr: &Instr,
) -> Result<(), Memory>
    ensures { IfOk result (λ _. rows_of rows.new.items ≡ instr_noted (rows_of rows.old.items) block first at (instr_of instr.now)) }
{
    put_reads(rows, instr, access_at(block, first, at, false))?;
    put_written(rows, written(instr), access_at(block, first, at, true))?;
    Ok(())
}

fn put_end(rows: &mut Rows, end: End, access: Access) -> Result<(), Memory>
    ensures { IfOk result (λ _. rows_of rows.new.items ≡ reads_noted (rows_of rows.old.items) access (end_reads (end_of end))) }
{
    match end {
        End::Jump { .. } => Ok(()),
        End::Branch { left, right, .. } => Ok(put_operands(rows, left, right, access)?),
        End::Return { value } => Ok(put_operand(rows, value, access)?),
    }
}

fn put_code(
    rows: &mut Rows,
    block: usize,
    first: usize,
    code: &[Instr],
    end: End,
) -> Result<(), Memory>
    requires { first + length code.now < 2 ^ 64 }
    ensures { IfOk result (λ _. rows_of rows.new.items ≡ code_noted (rows_of rows.old.items) block first first (map instr_of code.now) (end_of end)) }
{
    let mut at = first;
    for instr in code {
        put_instr(rows, block, first, at, instr)?;
        at += 1;
    }
    put_end(rows, end, access_at(block, first, at, false))?;
    Ok(())
}

fn put_blocks(rows: &mut Rows, blocks: &[Block]) -> Result<(), Memory>
    requires { places_in (map block_of blocks.now) < 2 ^ 64 }
    ensures { IfOk result (λ _. rows_of rows.new.items ≡ blocks_noted (rows_of rows.old.items) 0 0 (map block_of blocks.now)) }
{
    let mut first = 0;
    for (number, block) in blocks.iter().enumerate() {
        put_code(rows, number, first, &block.code, block.end)?;
        first += block.code.len() + 1;
    }
    Ok(())
}

/// A list for each register.
fn no_accesses(alloc: Global, registers: u32) -> Result<Rows, Memory>
    ensures { IfOk result (λ rows. rows_of rows.items ≡ replicate registers []) }
{
    let mut rows = Vec::new(alloc);
    for _ in 0..registers {
        rows.push(Vec::new(alloc))?;
    }
    Ok(rows)
}

/// The reads and writes of each register of a function, in the order of its code.
pub fn accesses(alloc: Global, function: &Function) -> Result<Rows, Memory>
    requires { places_in (function_of function.now).blocks < 2 ^ 64 }
    ensures { IfOk result (λ rows. rows_of rows.items ≡ accesses_of (function_of function.now)) }
{
    let mut rows = no_accesses(alloc, function.registers)?;
    put_blocks(&mut rows, &function.blocks)?;
    Ok(rows)
}

/// The reads and writes of one register.
pub fn accesses_in(accesses: &[Vec<Access>], register: u32) -> &[Access]
    ensures { result.now ≡ slice_index_or (rows_of accesses.now) register [] }
{
    match accesses.get(register as usize) {
        None => &[],
        Some(row) => row.as_slice(),
    }
}

/// Whether the places of blocks can be counted.
pub fn are_countable(blocks: &[Block]) -> bool
    ensures { result ≡ true → places_in (map block_of blocks.now) < 2 ^ 64 }
{
    let mut places = 0usize;
    for block in blocks {
        let Some(sum) = places.checked_add(block.code.len()) else {
            return false;
        };
        let Some(next) = sum.checked_add(1) else {
            return false;
        };
        places = next;
    }
    true
}
