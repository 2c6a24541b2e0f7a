// A program without its copies.
ghost use Rattle.std.specs.Prelude.{◌≡◌, ◌<◌, ◌+◌, true, false, [], ◌∷◌, Some, length, map, IfOk, IfSome, slice_index_or};
ghost use Rattle.std.specs.List.{AllZip};
ghost use Rattle.low_ir.specs.Code.{Do, Register, Set};
ghost use Rattle.low_ir.specs.Formed.{written_by};
ghost use Rattle.low_ir.specs.Programs.{low_of};
ghost use Rattle.low_ir.specs.View.{block_of, function_of, instr_of};
ghost use Rattle.pass_copy_propagation_law.specs.Copies.{Code, FunctionCopied, Grows, IsCopied, MayBeCopied};
ghost use Rattle.pass_copy_propagation.specs.Knowing.{list_of};
ghost use Rattle.pass_copy_propagation.specs.Making.{AreBlocks, Continues, Goes, IsBlock, IsPut};

use super::beginning::{begin, is_own, leads_on, list_at};
use super::choices::{Behind, Choice, is_delivered};
use super::copy::copy_at;
use super::counting::{Counted, counted_in};
use super::known::Known;
use super::numbers::wanted;
use super::renaming::{only_written, renamed, renamed_end, writes};
use low_ir::{Block, Function, Instr, Low};
use low_parts::accesses::written;
use low_parts::programs::with_functions;
use low_parts::same::{same_loops, same_registers};
use std::alloc::Global;
use wcc_base::Memory;

/// How many registers a function may have in any case.
const FREE: u32 = 256;

/// An instruction that reads where values stand and writes to this register, behind others; or it can't be made.
fn put(
    alloc: Global,
    known: &Known,
    into: u32,
    instr: &Instr,
    made: &mut Vec<Instr>,
) -> Result<bool, Memory>
    ensures { IfOk result (λ b. b ≡ true → IsPut known.now into (instr_of instr.now) (map instr_of made.old.items) (map instr_of made.new.items)) }
{
    match renamed(alloc, known, into, instr)? {
        None => Ok(false),
        Some(new) => {
            made.push(new)?;
            Ok(true)
        }
    }
}

/// An instruction that writes this register.
fn put_writing(
    alloc: Global,
    known: &mut Known,
    register: u32,
    instr: &Instr,
    made: &mut Vec<Instr>,
) -> Result<bool, Memory>
    requires { written_by (instr_of instr.now) ≡ Some register }
    ensures { IfOk result (λ b. b ≡ true → (rest : Code) → Goes (instr_of instr.now ∷ rest) known.old (map instr_of made.old.items) rest known.new (map instr_of made.new.items)) }
{
    if put(alloc, known, register, instr, made)? {
        Ok(known.deliver(register, register))
    } else {
        Ok(false)
    }
}

/// An instruction, which stays.
fn put_one(
    alloc: Global,
    known: &mut Known,
    instr: &Instr,
    made: &mut Vec<Instr>,
) -> Result<bool, Memory>
    ensures { IfOk result (λ b. b ≡ true → (rest : Code) → Goes (instr_of instr.now ∷ rest) known.old (map instr_of made.old.items) rest known.new (map instr_of made.new.items)) }
{
    match written(instr) {
        None => put(alloc, known, 0, instr, made),
        Some(register) => put_writing(alloc, known, register, instr, made),
    }
}

/// Whether no block counts on a register at its beginning.
fn is_brief(known: &Known, register: u32) -> bool
    ensures { result ≡ true → slice_index_or known.now.lasting register false ≡ false }
{
    !known.is_lasting(register)
}

/// An instruction that delivers its value to where the next one would copy it.
fn put_delivered(
    alloc: Global,
    known: &mut Known,
    instr: &Instr,
    into: u32,
    source: u32,
    made: &mut Vec<Instr>,
) -> Result<bool, Memory>
    ensures { IfOk result (λ b. b ≡ true → (rest : Code) → Goes (instr_of instr.now ∷ Do (Set into (Register source)) ∷ rest) known.old (map instr_of made.old.items) rest known.new (map instr_of made.new.items)) }
{
    if writes(instr, source) && into != source && !known.is_lasting(source) {
        if put(alloc, known, into, instr, made)? {
            return Ok(known.deliver(source, into));
        }
    }
    Ok(false)
}

/// A copy is left out.
fn leave_out(known: &mut Known, into: u32, source: u32) -> bool
    ensures { result ≡ true → (rest : Code) → (made : Code) → Goes (Do (Set into (Register source)) ∷ rest) known.old made rest known.new made }
{
    if known.is_lasting(into) {
        return false;
    }
    match known.find(source) {
        None => false,
        Some(place) => place == source && known.copy(into, place),
    }
}

/// An instruction that writes this register, but whose value goes to another one alone.
fn put_parted(
    alloc: Global,
    known: &mut Known,
    register: u32,
    place: u32,
    instr: &Instr,
    made: &mut Vec<Instr>,
) -> Result<bool, Memory>
    requires { written_by (instr_of instr.now) ≡ Some register }
    ensures { IfOk result (λ b. b ≡ true → (rest : Code) → Goes (instr_of instr.now ∷ rest) known.old (map instr_of made.old.items) rest known.new (map instr_of made.new.items)) }
{
    if is_brief(known, register) && is_brief(known, place) {
        if put(alloc, known, place, instr, made)? {
            return Ok(known.part(register, place));
        }
    }
    Ok(false)
}

/// An instruction whose value goes to another register alone; or it can't be made.
fn put_apart(
    alloc: Global,
    known: &mut Known,
    place: u32,
    instr: &Instr,
    made: &mut Vec<Instr>,
) -> Result<bool, Memory>
    ensures { IfOk result (λ b. b ≡ true → (rest : Code) → Goes (instr_of instr.now ∷ rest) known.old (map instr_of made.old.items) rest known.new (map instr_of made.new.items)) }
{
    match written(instr) {
        None => Ok(false),
        Some(register) => put_parted(alloc, known, register, place, instr, made),
    }
}

fn choice_at(choices: &[Choice], at: usize) -> Choice {
    match choices.get(at) {
        None => Choice::Stays,
        Some(choice) => *choice,
    }
}

fn is_left_out(choice: Choice) -> bool {
    match choice {
        Choice::LeftOut => true,
        _ => false,
    }
}

fn is_unread(choice: Choice) -> bool {
    match choice {
        Choice::Unread => true,
        _ => false,
    }
}

/// The register to which a value goes that lives in the block alone, if it goes to another one.
fn apart(choice: Choice) -> Option<u32> {
    match choice {
        Choice::Apart(place) => Some(place),
        _ => None,
    }
}

/// The instruction at a place, with the copy behind it.
fn put_pair(
    alloc: Global,
    known: &mut Known,
    code: &[Instr],
    at: usize,
    made: &mut Vec<Instr>,
) -> Result<Option<usize>, Memory>
    requires { at < length code.now }
    ensures { IfOk result (λ o. IfSome o (Continues (map instr_of code.now) at known.old (map instr_of made.old.items) known.new (map instr_of made.new.items))) }
{
    let Some(copy) = copy_at(code, at + 1) else {
        return Ok(None);
    };
    if put_delivered(alloc, known, &code[at], copy.into, copy.source, made)? {
        Ok(Some(at + 2))
    } else {
        Ok(None)
    }
}

fn put_single(
    alloc: Global,
    known: &mut Known,
    code: &[Instr],
    at: usize,
    made: &mut Vec<Instr>,
) -> Result<Option<usize>, Memory>
    requires { at < length code.now }
    ensures { IfOk result (λ o. IfSome o (Continues (map instr_of code.now) at known.old (map instr_of made.old.items) known.new (map instr_of made.new.items))) }
{
    if put_one(alloc, known, &code[at], made)? {
        Ok(Some(at + 1))
    } else {
        Ok(None)
    }
}

fn put_elsewhere(
    alloc: Global,
    known: &mut Known,
    code: &[Instr],
    at: usize,
    place: u32,
    made: &mut Vec<Instr>,
) -> Result<Option<usize>, Memory>
    requires { at < length code.now }
    ensures { IfOk result (λ o. IfSome o (Continues (map instr_of code.now) at known.old (map instr_of made.old.items) known.new (map instr_of made.new.items))) }
{
    if put_apart(alloc, known, place, &code[at], made)? {
        Ok(Some(at + 1))
    } else {
        Ok(None)
    }
}

/// An instruction that is no copy, as was chosen.
fn put_value(
    alloc: Global,
    known: &mut Known,
    code: &[Instr],
    choices: &[Choice],
    at: usize,
    made: &mut Vec<Instr>,
) -> Result<Option<usize>, Memory>
    requires { at < length code.now }
    ensures { IfOk result (λ o. IfSome o (Continues (map instr_of code.now) at known.old (map instr_of made.old.items) known.new (map instr_of made.new.items))) }
{
    match apart(choice_at(choices, at)) {
        None => put_single(alloc, known, code, at, made),
        Some(place) => put_elsewhere(alloc, known, code, at, place, made),
    }
}

fn leave_copy(known: &mut Known, code: &[Instr], at: usize) -> Option<usize>
    requires { at < length code.now }
    ensures { IfSome result (λ next. (made : Code) → Continues (map instr_of code.now) at known.old made known.new made next) }
{
    match copy_at(code, at) {
        None => None,
        Some(copy) => {
            if leave_out(known, copy.into, copy.source) {
                Some(at + 1)
            } else {
                None
            }
        }
    }
}

/// Whether the copy at a place is left out: as was chosen, if what it is a copy of stands in its own place; it may have been
/// delivered elsewhere.
fn leaves_out(known: &Known, code: &[Instr], choices: &[Choice], at: usize) -> bool {
    match copy_at(code, at) {
        None => false,
        Some(copy) => is_left_out(choice_at(choices, at)) && is_own(known, copy.source),
    }
}

/// An instruction whose value nothing needs is left out.
fn omit(known: &mut Known, instr: &Instr) -> bool
    ensures { result ≡ true → (rest : Code) → (made : Code) → Goes (instr_of instr.now ∷ rest) known.old made rest known.new made }
{
    match only_written(instr) {
        None => false,
        Some(register) => known.forget(register),
    }
}

fn leave_unread(known: &mut Known, code: &[Instr], at: usize) -> Option<usize>
    requires { at < length code.now }
    ensures { IfSome result (λ next. (made : Code) → Continues (map instr_of code.now) at known.old made known.new made next) }
{
    if omit(known, &code[at]) {
        Some(at + 1)
    } else {
        None
    }
}

/// Whether the instruction at a place is left out as one whose value nothing reads.
fn leaves_unread(choices: &[Choice], at: usize) -> bool {
    is_unread(choice_at(choices, at))
}

/// The next instruction of a block, as was chosen; or it can't be done. Answers where the code goes on.
fn put_next(
    alloc: Global,
    known: &mut Known,
    code: &[Instr],
    choices: &[Choice],
    at: usize,
    made: &mut Vec<Instr>,
) -> Result<Option<usize>, Memory>
    requires { at < length code.now }
    ensures { IfOk result (λ o. IfSome o (Continues (map instr_of code.now) at known.old (map instr_of made.old.items) known.new (map instr_of made.new.items))) }
{
    if is_delivered(choice_at(choices, at + 1)) {
        put_pair(alloc, known, code, at, made)
    } else if leaves_unread(choices, at) {
        Ok(leave_unread(known, code, at))
    } else if leaves_out(known, code, choices, at) {
        Ok(leave_copy(known, code, at))
    } else {
        put_value(alloc, known, code, choices, at, made)
    }
}

/// The code of a block without its copies, if it can be made.
fn code_of(
    alloc: Global,
    known: &mut Known,
    code: &[Instr],
    choices: &[Choice],
) -> Result<Option<Vec<Instr>>, Memory>
    ensures { IfOk result (λ o. IfSome o (λ made. Goes (map instr_of code.now) known.old [] [] known.new (map instr_of made.items))) }
{
    let mut made = Vec::new(alloc);
    let mut at = 0;
    while at < code.len() {
        match put_next(alloc, known, code, choices, at, &mut made)? {
            None => return Ok(None),
            Some(next) => at = next,
        }
    }
    Ok(Some(made))
}

/// A block without its copies, if it can be made.
fn block_of(
    alloc: Global,
    known: &mut Known,
    behind: &mut Behind,
    lists: &[Vec<u32>],
    number: usize,
    block: &Block,
) -> Result<Option<Block>, Memory>
    ensures { IfOk result (λ o. IfSome o (λ b. IsBlock (map list_of lists.now) number known.old known.new (block_of block.now) (block_of b))) }
{
    let choices = behind.choices(alloc, known, lists, block)?;
    if !begin(known, list_at(lists, number)) {
        return Ok(None);
    }
    let Some(code) = code_of(alloc, known, &block.code, &choices)? else {
        return Ok(None);
    };
    if !leads_on(known, lists, block.end) {
        return Ok(None);
    }
    let Some(end) = renamed_end(known, block.end) else {
        return Ok(None);
    };
    Ok(Some(Block {
        mark: block.mark,
        code,
        end,
    }))
}

/// Blocks without their copies, if they can be made.
fn blocks_of(
    alloc: Global,
    known: &mut Known,
    behind: &mut Behind,
    registers: u32,
    lists: &[Vec<u32>],
    blocks: &[Block],
) -> Result<Option<Vec<Block>>, Memory>
    ensures { IfOk result (λ o. IfSome o (λ made. AreBlocks registers (map list_of lists.now) known.old (map block_of blocks.now) (map block_of made.items))) }
{
    let mut made = Vec::new(alloc);
    for (number, block) in blocks.iter().enumerate() {
        let Some(new) = block_of(alloc, known, behind, lists, number, block)? else {
            return Ok(None);
        };
        made.push(new)?;
    }
    Ok(Some(made))
}

/// How many registers a function gets that has so many and wants so many more.
fn grown(registers: u32, wanted: u32) -> u32
    ensures { Grows registers result }
{
    if registers >= FREE {
        registers
    } else if wanted >= FREE - registers {
        FREE
    } else {
        registers + wanted
    }
}

/// A function without its copies, if it can be made.
fn function_of(alloc: Global, function: &Function) -> Result<Option<Function>, Memory>
    ensures { IfOk result (λ o. IfSome o (λ g. FunctionCopied (function_of function.now) (function_of g))) }
{
    let registers = grown(function.registers, wanted(alloc, function)?);
    let Counted { lasting, lists } = counted_in(alloc, function)?;
    let mut known = Known::new(alloc, lasting, registers)?;
    let mut behind = Behind::new(alloc, function, registers)?;
    let Some(blocks) = blocks_of(
        alloc,
        &mut known,
        &mut behind,
        registers,
        &lists,
        &function.blocks,
    )?
    else {
        return Ok(None);
    };
    Ok(Some(Function {
        parameters: same_registers(alloc, &function.parameters)?,
        registers,
        loops: same_loops(alloc, &function.loops)?,
        blocks,
    }))
}

pub fn functions_without_copies(
    alloc: Global,
    functions: &[Function],
) -> Result<Option<Vec<Function>>, Memory>
    ensures { IfOk result (λ o. IfSome o (λ made. AllZip FunctionCopied (map function_of functions.now) (map function_of made.items))) }
{
    let mut made = Vec::new(alloc);
    for function in functions {
        let Some(new) = function_of(alloc, function)? else {
            return Ok(None);
        };
        made.push(new)?;
    }
    Ok(Some(made))
}

/// A program with other functions.
fn made_of(low: Low, new: Vec<Function>) -> Low
    requires { AllZip FunctionCopied (map function_of low.functions.items) (map function_of new.items) }
    ensures { IsCopied (low_of low) (low_of result) }
{
    with_functions(low, new)
}

/// A program without copies that it can do without; or as it is, where a choice could not be followed, which no program is
/// known to need.
pub fn without_copies(alloc: Global, low: Low) -> Result<Low, Memory>
    ensures { IfOk result (λ l. MayBeCopied (low_of low) (low_of l)) }
{
    match functions_without_copies(alloc, &low.functions) {
        Ok(None) => Ok(low),
        Ok(Some(functions)) => Ok(made_of(low, functions)),
        Err(memory) => {
            drop(low);
            Err(memory)
        }
    }
}
