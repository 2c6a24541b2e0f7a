// What the items of programs touch.
ghost use Rattle.std.specs.Prelude.{◌≡◌, Some, map, slice_get, IfOk};
ghost use Rattle.low_ir.specs.View.{function_of};
ghost use Rattle.low_ir.specs.Placings.{placed_of};
ghost use Rattle.low_ir.specs.Programs.{low_of};
ghost use Rattle.asm_program.specs.Functions.{start_items};
ghost use Rattle.claims_definition.specs.Touches.{function_touches, functions_touches};
ghost use Rattle.claims_touches.specs.Named.{AreTouches, item_names, touch_in};

use super::blocks::function_touches;
use super::touch::{Touch, item_touches};
use asm_code::scope_of;
use asm_data::Data;
use asm_emission::start_items;
use asm_items::Item;
use low_ir::{Function, LowReg};
use std::alloc::Global;
use wcc_base::{Items, Memory};

fn touches_of_function(
    alloc: Global,
    code: &LowReg,
    memory: &Data,
    number: usize,
    function: &Function,
) -> Result<Items<Items<Touch>>, Memory>
    requires { slice_get (low_of code.now.low).functions number ≡ Some (function_of function.now) }
    ensures { IfOk result (λ all. map (map (touch_in (placed_of code.now).claims)) all ≡ function_touches memory.now (placed_of code.now) number) }
{
    let scope = scope_of(code, memory, number, function)?;
    let touches = function_touches(alloc, &scope, function.blocks.as_slice())?;
    Ok(touches)
}

fn all_functions(
    alloc: Global,
    code: &LowReg,
    memory: &Data,
) -> Result<Vec<Items<Items<Touch>>>, Memory>
    ensures { IfOk result (λ all. map (map (map (touch_in (placed_of code.now).claims))) all.items ≡ functions_touches memory.now (placed_of code.now) 0 (placed_of code.now).functions) }
{
    let mut all = Vec::new(alloc);
    for (number, function) in code.low.functions.iter().enumerate() {
        all.push(touches_of_function(alloc, code, memory, number, function)?)?;
    }
    Ok(all)
}

fn touches_of_blocks(alloc: Global, blocks: &[Items<Item>]) -> Result<Items<Items<Touch>>, Memory>
    ensures { IfOk result (λ all. all ≡ map item_names blocks.now) }
{
    let mut all = Vec::new(alloc);
    for block in blocks {
        all.push(item_touches(alloc, block.as_slice())?)?;
    }
    Ok(Items::new(all))
}

/// What the start code touches.
fn start_touches(alloc: Global, second: u32, main: u32) -> Result<Items<Items<Touch>>, Memory>
    ensures { IfOk result (λ all. all ≡ map item_names (start_items second main)) }
{
    let blocks = start_items(alloc, second, main)?;
    touches_of_blocks(alloc, blocks.as_slice())
}

/// What each item touches, by function and block; the start code comes last.
pub fn touches_of(
    alloc: Global,
    code: &LowReg,
    memory: &Data,
) -> Result<Vec<Items<Items<Touch>>>, Memory>
    ensures { IfOk result (λ all. AreTouches code.now memory.now all.items) }
{
    let mut all = all_functions(alloc, code, memory)?;
    all.push(start_touches(alloc, memory.second(), code.low.main)?)?;
    Ok(all)
}
