// What the items of blocks and functions touch.
ghost use Rattle.std.specs.Prelude.{◌≡◌, ◌+◌, ◌<◌, ◌^◌, ◌++◌, All, length, map, true, IfOk, OnOk};
ghost use Rattle.low_ir.specs.View.{instr_of, block_of, end_of};
ghost use Rattle.asm_program.specs.Functions.{function_in, opening_items, end_items, leave_items};
ghost use Rattle.asm_program.specs.Ranges.{InInstr, InBlock, InEnd, InProgram};
ghost use Rattle.asm_code.specs.Scopes.{IsScope, memory, program, placed_code, placed_block, placed_blocks, placed_end};
ghost use Rattle.claims_definition.specs.Touches.{block_touches, blocks_touches, function_touches, leaving_touches, touches};
ghost use Rattle.claims_touches.specs.Named.{item_names};
ghost use Rattle.claims_touches.specs.Bodies.{filled_names, instrs_touches, touches_in};

use super::instrs::put_instr;
use super::touch::{Touch, item_touches, put_items};
use asm_code::{Scope, Spot, emit_end, emit_opening, emit_return, place_behind};
use low_ir::{Block, End, Instr};
use std::alloc::Global;
use wcc_base::{Items, Memory};

/// The code of a function that stands before its first block.
fn put_opening(
    alloc: Global,
    scope: &Scope<'_>,
    touches: &mut Vec<Touch>,
    block: u32,
) -> Result<(), Memory>
    requires { IsScope scope.now }
    ensures { OnOk result (touches.new.items ≡ touches.old.items ++ item_names (opening_items (memory scope.now) (program scope.now) scope.now.number block)) }
{
    let mut items = Vec::new(alloc);
    emit_opening(scope, &mut items, block)?;
    put_items(touches, items.as_slice())
}

/// A block's instructions.
fn put_code(
    alloc: Global,
    scope: &Scope<'_>,
    touches: &mut Vec<Touch>,
    place: usize,
    code: &[Instr],
) -> Result<(), Memory>
    requires scope { IsScope scope.now }
    requires program { InProgram (program scope.now) }
    requires room { place + length code.now < 2 ^ 64 }
    requires there { All InInstr (placed_code scope.now place (map instr_of code.now)) }
    ensures { OnOk result (touches_in scope.now touches.new.items ≡ touches_in scope.now touches.old.items ++ instrs_touches (memory scope.now) (program scope.now) scope.now.number (placed_code scope.now place (map instr_of code.now))) }
{
    for (index, instr) in code.iter().enumerate() {
        put_instr(alloc, scope, touches, place + index, instr)?;
    }
    Ok(())
}

/// The end of a block.
fn put_end(
    alloc: Global,
    scope: &Scope<'_>,
    touches: &mut Vec<Touch>,
    block: u32,
    end: End,
) -> Result<(), Memory>
    requires scope { IsScope scope.now }
    requires block { block + 1 < 2 ^ 32 }
    requires there { InEnd (placed_end scope.now (end_of end)) }
    ensures { OnOk result (touches.new.items ≡ touches.old.items ++ item_names (end_items (memory scope.now) (program scope.now) scope.now.number block (placed_end scope.now (end_of end)))) }
{
    let mut items = Vec::new(alloc);
    emit_end(scope, &mut items, block, end)?;
    put_items(touches, items.as_slice())
}

/// A block has an instruction of its own.
fn fill(touches: &mut Vec<Touch>) -> Result<(), Memory>
    ensures { OnOk result (touches.new.items ≡ filled_names touches.old.items) }
{
    if touches.len() > 0 {
        return Ok(());
    }
    touches.push(Touch::Nothing)?;
    Ok(())
}

fn block_touches(
    alloc: Global,
    scope: &Scope<'_>,
    spot: Spot,
    block: &Block,
) -> Result<Items<Touch>, Memory>
    requires scope { IsScope scope.now }
    requires program { InProgram (program scope.now) }
    requires block { spot.block + 1 < 2 ^ 32 }
    requires room { spot.place + length block.now.code.items < 2 ^ 64 }
    requires there { InBlock (placed_block scope.now spot.place (block_of block.now)) }
    ensures { IfOk result (λ touches. touches_in scope.now touches ≡ block_touches (memory scope.now) (program scope.now) scope.now.number spot.block (placed_block scope.now spot.place (block_of block.now))) }
{
    let mut touches = Vec::new(alloc);
    put_opening(alloc, scope, &mut touches, spot.block)?;
    put_code(
        alloc,
        scope,
        &mut touches,
        spot.place,
        block.code.as_slice(),
    )?;
    put_end(alloc, scope, &mut touches, spot.block, block.end)?;
    fill(&mut touches)?;
    Ok(Items::new(touches))
}

fn all_blocks(
    alloc: Global,
    scope: &Scope<'_>,
    blocks: &[Block],
) -> Result<Vec<Items<Touch>>, Memory>
    requires scope { IsScope scope.now }
    requires program { InProgram (program scope.now) }
    requires count { length blocks.now < 2 ^ 32 }
    requires there { All InBlock (placed_blocks scope.now 0 (map block_of blocks.now)) }
    ensures { IfOk result (λ all. map (touches_in scope.now) all.items ≡ blocks_touches (memory scope.now) (program scope.now) scope.now.number 0 (placed_blocks scope.now 0 (map block_of blocks.now))) }
{
    let mut all = Vec::new(alloc);
    let mut place = 0;
    for (number, block) in blocks.iter().enumerate() {
        let behind = place_behind(place, block)?;
        let spot = Spot {
            block: number as u32,
            place,
        };
        all.push(block_touches(alloc, scope, spot, block)?)?;
        place = behind;
    }
    Ok(all)
}

/// The block that leaves a function, behind its others.
fn leaving_block(alloc: Global, scope: &Scope<'_>) -> Result<Items<Touch>, Memory>
    requires { IsScope scope.now }
    ensures { IfOk result (λ block. touches_in scope.now block ≡ touches (leave_items (memory scope.now) (program scope.now) scope.now.number true 0)) }
{
    let mut items = Vec::new(alloc);
    emit_return(scope, &mut items)?;
    let touches = item_touches(alloc, items.as_slice())?;
    Ok(touches)
}

/// That block, where returns don't leave by themselves.
fn put_leaving(alloc: Global, scope: &Scope<'_>, all: &mut Vec<Items<Touch>>) -> Result<(), Memory>
    requires { IsScope scope.now }
    ensures { OnOk result (map (touches_in scope.now) all.new.items ≡ map (touches_in scope.now) all.old.items ++ leaving_touches (memory scope.now) (program scope.now) scope.now.number scope.now.at_once) }
{
    if scope.at_once {
        return Ok(());
    }
    all.push(leaving_block(alloc, scope)?)?;
    Ok(())
}

/// What the items of a function touch.
pub fn function_touches(
    alloc: Global,
    scope: &Scope<'_>,
    blocks: &[Block],
) -> Result<Items<Items<Touch>>, Memory>
    requires scope { IsScope scope.now }
    requires program { InProgram (program scope.now) }
    requires count { length blocks.now < 2 ^ 32 }
    requires there { All InBlock (placed_blocks scope.now 0 (map block_of blocks.now)) }
    requires own { (function_in (program scope.now) scope.now.number).blocks ≡ placed_blocks scope.now 0 (map block_of blocks.now) }
    ensures { IfOk result (λ all. map (touches_in scope.now) all ≡ function_touches (memory scope.now) (program scope.now) scope.now.number) }
{
    let mut all = all_blocks(alloc, scope, blocks)?;
    put_leaving(alloc, scope, &mut all)?;
    Ok(Items::new(all))
}
