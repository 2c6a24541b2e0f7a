// The list of what may be moved.
ghost use Rattle.std.specs.Prelude.{◌≡◌, map, IfOk};
ghost use Rattle.claims_definition.specs.Listed.{Laid};
ghost use Rattle.claims_lists.specs.Lists.{IsOf};
ghost use Rattle.claims_lists.specs.Places.{IsRoomy};
ghost use Rattle.claims_touches.specs.Named.{AreTouches};
ghost use Rattle.claims_making.specs.Whole.{IsWhole};
ghost use Rattle.claims_definition.specs.Movables.{movables_of, movable_of};
ghost use Rattle.claims_movables.specs.Listed.{lists_below};

use super::alone::accesses;
use super::arrays::{Arrays, put_arrays};
use super::functions::function_items;
use super::numbers::count;
use asm_data::Data;
use claims_definition::LaidItem;
use claims_lists::Laying;
use claims_places::by_number;
use claims_touches::Touch;
use rv_core::Region;
use std::alloc::Global;
use wcc_base::{Items, Memory};

/// By array, the addresses of the accesses that touch it alone.
fn lists_of(
    alloc: Global,
    laying: &Laying<'_>,
    touches: &[Items<Items<Touch>>],
    arrays: u32,
) -> Result<Vec<Items<u32>>, Memory>
    requires { IsRoomy laying.now.layout.now }
    ensures { IfOk result (λ lists. (l : Laid) → IsOf laying.now l → AreTouches laying.now.code.now l.memory touches.now → lists.items ≡ lists_below l arrays) }
{
    let accesses = accesses(alloc, laying, touches)?;
    let lists = by_number(alloc, accesses.as_slice(), arrays)?;
    Ok(lists)
}

/// What may be moved into the scratchpad: the functions, and then the arrays that aren't local. The regions are those
/// of arrays, by number; by function, block and item, `touches` has what each item touches.
pub fn items(
    alloc: Global,
    laying: &Laying<'_>,
    memory: &Data,
    regions: &[Region],
    touches: &[Items<Items<Touch>>],
) -> Result<Vec<LaidItem>, Memory>
    requires { IsRoomy laying.now.layout.now }
    ensures { IfOk result (λ items. (l : Laid) → IsWhole laying.now regions.now touches.now l → l.memory ≡ memory.now → map movable_of items.items ≡ movables_of l) }
{
    let functions = count(laying.code.low.functions.len())?;
    let objects = laying.code.low.objects.as_slice();
    let arrays = count(objects.len())?;
    let lists = lists_of(alloc, laying, touches, arrays)?;
    let parts = Arrays {
        functions,
        regions,
        lists: lists.as_slice(),
    };
    let mut items = function_items(alloc, laying, memory)?;
    put_arrays(alloc, &mut items, &parts, objects)?;
    Ok(items)
}
