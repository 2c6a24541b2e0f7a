// The items of blocks and functions.
ghost use Rattle.std.specs.Prelude.{◌≡◌, suc, ◌+◌, ◌<◌, ◌^◌, ◌++◌, All, length, map, true, IfOk, OnOk};
ghost use Rattle.low_ir.specs.View.{instr_of, block_of};
ghost use Rattle.asm_program.specs.Functions.{function_in, opening_items, leave_items, block_items, blocks_from, function_items};
ghost use Rattle.asm_program.specs.Ranges.{InInstr, InBlock, InProgram};
ghost use Rattle.asm_code.specs.Scopes.{IsScope, memory, program, placed_code, placed_block, placed_blocks};
ghost use Rattle.asm_code.specs.Bodies.{filled_items, instrs_items};

use super::instrs::{emit_end, emit_instr, emit_return};
use super::scope::Scope;
use asm_emission::{emit_entry, no_operation};
use asm_items::Item;
use low_ir::{Block, Instr};
use std::alloc::Global;
use wcc_base::{Items, Memory};

/// A block, by its number and the place of its first instruction.
#[derive(Clone, Copy)]
pub struct Spot {
    pub block: u32,
    pub place: usize,
}

/// The items of a block's instructions.
fn emit_code(
    alloc: Global,
    scope: &Scope<'_>,
    items: &mut Vec<Item>,
    place: usize,
    code: &[Instr],
) -> Result<(), Memory>
    requires scope { IsScope scope.now }
    requires program { InProgram (program scope.now) }
    requires room { place + length code.now < 2 ^ 64 }
    requires there { All InInstr (placed_code scope.now place (map instr_of code.now)) }
    ensures { OnOk result (items.new.items ≡ items.old.items ++ instrs_items (memory scope.now) (program scope.now) scope.now.number (placed_code scope.now place (map instr_of code.now))) }
{
    for (index, instr) in code.iter().enumerate() {
        emit_instr(alloc, scope, items, place + index, instr)?;
    }
    Ok(())
}

/// The code of a function that stands before its first block.
pub fn emit_opening(scope: &Scope<'_>, items: &mut Vec<Item>, block: u32) -> Result<(), Memory>
    requires { IsScope scope.now }
    ensures { OnOk result (items.new.items ≡ items.old.items ++ opening_items (memory scope.now) (program scope.now) scope.now.number block) }
{
    if block == 0 {
        return emit_entry(scope.frame, items, scope.leaf);
    }
    Ok(())
}

/// A block has an instruction of its own.
fn fill(items: &mut Vec<Item>) -> Result<(), Memory>
    ensures { OnOk result (items.new.items ≡ filled_items items.old.items) }
{
    if items.len() > 0 {
        return Ok(());
    }
    items.push(Item::Single(no_operation()))?;
    Ok(())
}

fn block_items(
    alloc: Global,
    scope: &Scope<'_>,
    spot: Spot,
    block: &Block,
) -> Result<Items<Item>, Memory>
    requires scope { IsScope scope.now }
    requires program { InProgram (program scope.now) }
    requires block { spot.block + 1 < 2 ^ 32 }
    requires room { spot.place + length block.now.code.items < 2 ^ 64 }
    requires there { InBlock (placed_block scope.now spot.place (block_of block.now)) }
    ensures { IfOk result (λ items. items ≡ block_items (memory scope.now) (program scope.now) scope.now.number spot.block (placed_block scope.now spot.place (block_of block.now))) }
{
    let mut items = Vec::new(alloc);
    emit_opening(scope, &mut items, spot.block)?;
    emit_code(alloc, scope, &mut items, spot.place, block.code.as_slice())?;
    emit_end(scope, &mut items, spot.block, block.end)?;
    fill(&mut items)?;
    Ok(Items::new(items))
}

/// The place of the code behind a block.
pub fn place_behind(place: usize, block: &Block) -> Result<usize, Memory>
    ensures { IfOk result (λ behind. behind ≡ place + suc (length block.now.code.items)) }
{
    let Some(end) = place.checked_add(block.code.len()) else {
        return Err(Memory);
    };
    let Some(behind) = end.checked_add(1) else {
        return Err(Memory);
    };
    Ok(behind)
}

fn all_blocks(
    alloc: Global,
    scope: &Scope<'_>,
    blocks: &[Block],
) -> Result<Vec<Items<Item>>, Memory>
    requires scope { IsScope scope.now }
    requires program { InProgram (program scope.now) }
    requires count { length blocks.now < 2 ^ 32 }
    requires there { All InBlock (placed_blocks scope.now 0 (map block_of blocks.now)) }
    ensures { IfOk result (λ all. all.items ≡ blocks_from (memory scope.now) (program scope.now) scope.now.number 0 (placed_blocks scope.now 0 (map block_of blocks.now))) }
{
    let mut all = Vec::new(alloc);
    let mut place = 0;
    for (number, block) in blocks.iter().enumerate() {
        let behind = place_behind(place, block)?;
        let spot = Spot {
            block: number as u32,
            place,
        };
        all.push(block_items(alloc, scope, spot, block)?)?;
        place = behind;
    }
    Ok(all)
}

/// The block that leaves a function, behind its others.
fn leaving_block(alloc: Global, scope: &Scope<'_>) -> Result<Items<Item>, Memory>
    requires { IsScope scope.now }
    ensures { IfOk result (λ items. items ≡ leave_items (memory scope.now) (program scope.now) scope.now.number true 0) }
{
    let mut items = Vec::new(alloc);
    emit_return(scope, &mut items)?;
    Ok(Items::new(items))
}

/// The items of a function.
pub fn function_items(
    alloc: Global,
    scope: &Scope<'_>,
    blocks: &[Block],
) -> Result<Items<Items<Item>>, Memory>
    requires scope { IsScope scope.now }
    requires program { InProgram (program scope.now) }
    requires count { length blocks.now < 2 ^ 32 }
    requires there { All InBlock (placed_blocks scope.now 0 (map block_of blocks.now)) }
    requires own { (function_in (program scope.now) scope.now.number).blocks ≡ placed_blocks scope.now 0 (map block_of blocks.now) }
    ensures { IfOk result (λ all. all ≡ function_items (memory scope.now) (program scope.now) scope.now.number) }
{
    let mut all = all_blocks(alloc, scope, blocks)?;
    if !scope.at_once {
        all.push(leaving_block(alloc, scope)?)?;
    }
    Ok(Items::new(all))
}
