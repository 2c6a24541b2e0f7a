// Layouts of a program that has room, and the sizes of its functions.
ghost use Rattle.std.specs.Prelude.{◌≡◌, map, IfOk};
ghost use Rattle.low_ir.specs.Placings.{placed_of};
ghost use Rattle.image_definition.specs.Sizes.{function_sizes};
ghost use Rattle.claims_definition.specs.Movables.{movable_of};
ghost use Rattle.layout_relation.specs.Items.{item_sizes, sized};
ghost use Rattle.layout_fitting.specs.Fitted.{AreSizes, HasListed, IsPlaced, IsUnplaced, nothing, size_listed};

use claims_definition::LaidItem;
use image_fitting::{has_room, has_sizes};
use image_memory::Placement;
use low_ir::LowReg;
use low_layout::{Laid, lay};
use std::alloc::Global;
use wcc_base::Memory;

/// Nothing is placed.
fn nothing(alloc: Global) -> Placement
    ensures { result ≡ nothing }
{
    Placement {
        functions: Vec::new(alloc),
        objects: Vec::new(alloc),
    }
}

/// The layout of a program with nothing in the scratchpad, where the program has room.
pub fn lay_unplaced(alloc: Global, code: &LowReg) -> Result<Option<Laid>, Memory>
    ensures laid { IfOk result (IsUnplaced code.now) }
    ensures listed { IfOk result (HasListed (placed_of code.now)) }
{
    if has_room(code) {
        let placement = nothing(alloc);
        let laid = lay(alloc, code, &placement)?;
        return Ok(Some(laid));
    }
    Ok(None)
}

fn size_at(items: &[LaidItem], number: usize) -> u32
    ensures { result ≡ size_listed (map sized (map movable_of items.now)) number }
{
    match items.get(number) {
        Some(item) => item.size,
        None => 0,
    }
}

fn listed_sizes(alloc: Global, code: &LowReg, items: &[LaidItem]) -> Result<Vec<u32>, Memory>
    requires { map sized (map movable_of items.now) ≡ item_sizes (placed_of code.now) }
    ensures { IfOk result (λ sizes. sizes.items ≡ function_sizes (placed_of code.now)) }
{
    let mut sizes = Vec::new(alloc);
    for number in 0..code.low.functions.len() {
        sizes.push(size_at(items, number))?;
    }
    Ok(sizes)
}

fn sizes_in(alloc: Global, code: &LowReg, laid: Laid) -> Result<Vec<u32>, Memory>
    requires { map sized (map movable_of laid.lists.items.items) ≡ item_sizes (placed_of code.now) }
    ensures { IfOk result (λ sizes. sizes.items ≡ function_sizes (placed_of code.now)) }
{
    let sizes = listed_sizes(alloc, code, &laid.lists.items);
    drop(laid);
    sizes
}

/// The sizes of the functions with any placement, where the program has room.
pub fn sizes_of(alloc: Global, code: &LowReg) -> Result<Option<Vec<u32>>, Memory>
    ensures { IfOk result (AreSizes (placed_of code.now)) }
{
    match lay_unplaced(alloc, code)? {
        None => Ok(None),
        Some(laid) => {
            let sizes = sizes_in(alloc, code, laid)?;
            Ok(Some(sizes))
        }
    }
}

/// The layout of a program with a placement, where that has room by the sizes of the functions.
pub fn lay_placed(
    alloc: Global,
    code: &LowReg,
    sizes: &[u32],
    placement: &Placement,
) -> Result<Option<Laid>, Memory>
    requires { sizes.now ≡ function_sizes (placed_of code.now) }
    ensures { IfOk result (IsPlaced placement.now code.now) }
{
    if has_sizes(code, sizes, placement) {
        let laid = lay(alloc, code, placement)?;
        return Ok(Some(laid));
    }
    Ok(None)
}
