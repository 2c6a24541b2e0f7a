// A program with copies in place of loads and operations whose value a register holds.
ghost use Rattle.std.specs.Prelude.{map, IfOk, IfSome};
ghost use Rattle.std.specs.List.{AllZip};
ghost use Rattle.low_ir.specs.Programs.{low_of};
ghost use Rattle.low_ir.specs.View.{block_of, claim_of, function_of, instr_of};
ghost use Rattle.pass_common_subexpressions_law.specs.Reloads.{Becomes, BlockReloaded, BlocksReloaded, FunctionReloaded, IsReloaded, MayBeReloaded};
ghost use Rattle.pass_common_subexpressions.specs.Making.{IsCode, facts_of, out_of};

use super::beginnings::beginnings;
use super::facts::{Fact, given_by};
use super::known::Known;
use super::lists::{all_few, hands, known_by, list_for};
use low_ir::{Block, Function, Instr, Low, Operand};
use low_parts::programs::with_functions;
use low_parts::same::{same_instr, same_loops, same_registers};
use std::alloc::Global;
use wcc_base::Memory;

/// A copy of the register that holds what an instruction would give.
fn reload_of(known: &Known, instr: &Instr) -> Option<Instr>
    ensures { IfSome result (λ j. Becomes known.now (instr_of instr.now) (instr_of j)) }
{
    let Some(given) = given_by(instr) else {
        return None;
    };
    match known.find(given.source) {
        None => None,
        Some(register) => Some(Instr::Set {
            into: given.into,
            value: Operand::Register(register),
        }),
    }
}

/// An instruction, or a copy of what it would give.
fn instr_of(alloc: Global, known: &Known, instr: &Instr) -> Result<Instr, Memory>
    ensures { IfOk result (λ j. Becomes known.now (instr_of instr.now) (instr_of j)) }
{
    match reload_of(known, instr) {
        None => same_instr(alloc, instr),
        Some(copy) => Ok(copy),
    }
}

/// The code of a block, of which this is known at its beginning.
fn code_behind(
    alloc: Global,
    claims: &[Vec<u32>],
    known: &mut Known,
    code: &[Instr],
) -> Result<Vec<Instr>, Memory>
    ensures { IfOk result (λ made. IsCode (map claim_of claims.now) (map instr_of code.now) known.old known.new (map instr_of made.items)) }
{
    let mut made = Vec::new(alloc);
    for instr in code {
        made.push(instr_of(alloc, known, instr)?)?;
        known.pass(claims, instr);
    }
    Ok(made)
}

/// The block of a number, if what is known behind it is what those count on to which it leads.
fn block_of(
    alloc: Global,
    claims: &[Vec<u32>],
    lists: &[Vec<Fact>],
    number: usize,
    block: &Block,
) -> Result<Option<Block>, Memory>
    ensures { IfOk result (λ o. IfSome o (λ b. BlockReloaded (map claim_of claims.now) (out_of (map facts_of lists.now)) number (block_of block.now) (block_of b))) }
{
    let mut known = known_by(alloc, list_for(lists, number))?;
    let code = code_behind(alloc, claims, &mut known, &block.code)?;
    if !hands(&known, lists, block.end) {
        return Ok(None);
    }
    Ok(Some(Block {
        mark: block.mark,
        code,
        end: block.end,
    }))
}

fn blocks_of(
    alloc: Global,
    claims: &[Vec<u32>],
    lists: &[Vec<Fact>],
    blocks: &[Block],
) -> Result<Option<Vec<Block>>, Memory>
    ensures { IfOk result (λ o. IfSome o (λ made. BlocksReloaded (map claim_of claims.now) (out_of (map facts_of lists.now)) 0 (map block_of blocks.now) (map block_of made.items))) }
{
    let mut made = Vec::new(alloc);
    for (number, block) in blocks.iter().enumerate() {
        let Some(new) = block_of(alloc, claims, lists, number, block)? else {
            return Ok(None);
        };
        made.push(new)?;
    }
    Ok(Some(made))
}

/// A function over these facts, if they hold.
fn function_over(
    alloc: Global,
    claims: &[Vec<u32>],
    lists: &[Vec<Fact>],
    function: &Function,
) -> Result<Option<Function>, Memory>
    ensures { IfOk result (λ o. IfSome o (λ g. FunctionReloaded (map claim_of claims.now) (function_of function.now) (function_of g))) }
{
    if !all_few(lists, function.registers) {
        return Ok(None);
    }
    let Some(blocks) = blocks_of(alloc, claims, lists, &function.blocks)? else {
        return Ok(None);
    };
    Ok(Some(Function {
        parameters: same_registers(alloc, &function.parameters)?,
        registers: function.registers,
        loops: same_loops(alloc, &function.loops)?,
        blocks,
    }))
}

fn function_of(
    alloc: Global,
    claims: &[Vec<u32>],
    function: &Function,
) -> Result<Option<Function>, Memory>
    ensures { IfOk result (λ o. IfSome o (λ g. FunctionReloaded (map claim_of claims.now) (function_of function.now) (function_of g))) }
{
    let lists = beginnings(alloc, claims, function)?;
    function_over(alloc, claims, &lists, function)
}

/// Functions of a program with these claims, if they can be made.
pub fn functions_without_reloads(
    alloc: Global,
    claims: &[Vec<u32>],
    functions: &[Function],
) -> Result<Option<Vec<Function>>, Memory>
    ensures { IfOk result (λ o. IfSome o (λ made. AllZip (FunctionReloaded (map claim_of claims.now)) (map function_of functions.now) (map function_of made.items))) }
{
    let mut made = Vec::new(alloc);
    for function in functions {
        let Some(new) = function_of(alloc, claims, function)? else {
            return Ok(None);
        };
        made.push(new)?;
    }
    Ok(Some(made))
}

/// A program with other functions.
fn made_of(low: Low, new: Vec<Function>) -> Low
    requires { AllZip (FunctionReloaded (map claim_of low.claims.items)) (map function_of low.functions.items) (map function_of new.items) }
    ensures { IsReloaded (low_of low) (low_of result) }
{
    with_functions(low, new)
}

/// A program that neither loads nor computes again what a register holds, where that is found; or as it is, where facts didn't hold,
/// which no program is known to have.
pub fn without_reloads(alloc: Global, low: Low) -> Result<Low, Memory>
    ensures { IfOk result (λ l. MayBeReloaded (low_of low) (low_of l)) }
{
    match functions_without_reloads(alloc, &low.claims, &low.functions) {
        Ok(None) => Ok(low),
        Ok(Some(functions)) => Ok(made_of(low, functions)),
        Err(memory) => {
            drop(low);
            Err(memory)
        }
    }
}
