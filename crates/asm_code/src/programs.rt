// The items of programs.
ghost use Rattle.std.specs.Prelude.{◌≡◌, ◌<◌, ◌^◌, length, Some, map, slice_get, IfOk};
ghost use Rattle.low_ir.specs.View.{block_of, function_of, instr_of};
ghost use Rattle.low_ir.specs.Placings.{placed_of};
ghost use Rattle.low_ir.specs.Programs.{low_of};
ghost use Rattle.asm_program.specs.Functions.{function_items, functions_from, program_items};
ghost use Rattle.asm_code.specs.Leaves.{calls_none, all_call_none};
ghost use Rattle.asm_code.specs.Scopes.{IsScopeOf};

use super::blocks::function_items;
use super::passing::{kept_of, places_of};
use super::scope::Scope;
use asm_data::Data;
use asm_emission::{leaves_at_once, start_items};
use asm_items::Item;
use low_ir::{Block, Function, Instr, LowReg};
use std::alloc::Global;
use wcc_base::{Items, Memory};

fn calls_none(code: &[Instr]) -> bool
    ensures { result ≡ calls_none (map instr_of code.now) }
{
    for instr in code {
        if let Instr::Call { .. } = instr {
            return false;
        }
    }
    true
}

fn is_leaf(blocks: &[Block]) -> bool
    ensures { result ≡ all_call_none (map block_of blocks.now) }
{
    for block in blocks {
        if !calls_none(block.code.as_slice()) {
            return false;
        }
    }
    true
}

/// A function of the program, whose number this is.
pub fn scope_of<'a>(
    code: &'a LowReg,
    memory: &'a Data,
    number: usize,
    function: &Function,
) -> Result<Scope<'a>, Memory>
    requires { slice_get (low_of code.now.low).functions number ≡ Some (function_of function.now) }
    ensures scope { IfOk result (λ scope. IsScopeOf code.now memory.now number scope) }
    ensures count { IfOk result (λ _. length function.now.blocks.items < 2 ^ 32) }
{
    let Ok(blocks) = u32::try_from(function.blocks.len()) else {
        return Err(Memory);
    };
    let frame = memory.frame(number);
    let leaf = is_leaf(function.blocks.as_slice());
    Ok(Scope {
        code,
        memory,
        number,
        frame,
        places: places_of(code, number),
        kept: kept_of(code, number),
        leaf,
        at_once: leaves_at_once(frame, leaf),
        blocks,
    })
}

fn items_of_function(
    alloc: Global,
    code: &LowReg,
    memory: &Data,
    number: usize,
    function: &Function,
) -> Result<Items<Items<Item>>, Memory>
    requires { slice_get (low_of code.now.low).functions number ≡ Some (function_of function.now) }
    ensures { IfOk result (λ all. all ≡ function_items memory.now (placed_of code.now) number) }
{
    let scope = scope_of(code, memory, number, function)?;
    function_items(alloc, &scope, function.blocks.as_slice())
}

fn all_functions(
    alloc: Global,
    code: &LowReg,
    memory: &Data,
) -> Result<Vec<Items<Items<Item>>>, Memory>
    ensures { IfOk result (λ all. all.items ≡ functions_from memory.now (placed_of code.now) 0 (placed_of code.now).functions) }
{
    let mut all = Vec::new(alloc);
    for (number, function) in code.low.functions.iter().enumerate() {
        all.push(items_of_function(alloc, code, memory, number, function)?)?;
    }
    Ok(all)
}

/// The items of each function of a program, and those of the start code as the last one.
pub fn items_of(
    alloc: Global,
    code: &LowReg,
    memory: &Data,
) -> Result<Vec<Items<Items<Item>>>, Memory>
    ensures { IfOk result (λ all. all.items ≡ program_items memory.now (placed_of code.now)) }
{
    let mut all = all_functions(alloc, code, memory)?;
    all.push(start_items(alloc, memory.second(), code.low.main)?)?;
    Ok(all)
}
