// The items of arrays.
ghost use Rattle.std.specs.Prelude.{◌≡◌, ◌++◌, [], map, slice_index_or, IfOk};
ghost use Rattle.low_ir.specs.Arrays.{array_size};
ghost use Rattle.low_ir.specs.View.{object_of};
ghost use Rattle.claims_definition.specs.Movables.{is_local, unless, movable_of};
ghost use Rattle.claims_making.specs.Sights.{region_in};
ghost use Rattle.claims_movables.specs.Listed.{array_in, arrays_in};

use super::numbers::{add, count};
use claims_definition::LaidItem;
use image_segments::array_size;
use low_ir::object::{Object, Storage};
use rv_core::Region;
use std::alloc::Global;
use wcc_base::{Items, Memory};

/// What the items of arrays are made of.
#[derive(Clone, Copy)]
pub struct Arrays<'a> {
    /// The number of functions.
    pub functions: u32,
    /// By array. An array that the list doesn't reach lies in RAM.
    pub regions: &'a [Region],
    /// By array, the addresses of the accesses that touch it alone.
    pub lists: &'a [Items<u32>],
}

fn is_local(storage: Storage) -> bool
    ensures { result ≡ is_local storage }
{
    match storage {
        Storage::Constant => false,
        Storage::Global => false,
        Storage::Local => true,
    }
}

/// What an array takes, in 32 bits.
fn size_of(object: &Object) -> Result<u32, Memory>
    ensures { IfOk result (λ size. size ≡ array_size (object_of object.now)) }
{
    match u32::try_from(array_size(object)) {
        Ok(size) => Ok(size),
        Err(_) => Err(Memory),
    }
}

fn region_at(regions: &[Region], array: usize) -> Region
    ensures { result ≡ region_in regions.now array }
{
    match regions.get(array) {
        Some(region) => *region,
        None => Region::Ram,
    }
}

fn list_at(lists: &[Items<u32>], array: usize) -> &[u32]
    ensures { result.now ≡ slice_index_or lists.now array [] }
{
    match lists.get(array) {
        Some(list) => list.as_slice(),
        None => &[],
    }
}

fn array_item(
    alloc: Global,
    arrays: &Arrays<'_>,
    number: usize,
    object: &Object,
) -> Result<LaidItem, Memory>
    ensures { IfOk result (λ item. movable_of item ≡ array_in arrays.now.functions (region_in arrays.now.regions.now) arrays.now.lists.now number (object_of object.now)) }
{
    let id = add(arrays.functions, count(number)?)?;
    let size = size_of(object)?;
    let at = Vec::from_slice(alloc, list_at(arrays.lists, number))?;
    Ok(LaidItem {
        id,
        size,
        code: false,
        region: region_at(arrays.regions, number),
        at: Items::new(at),
    })
}

fn put_array(
    alloc: Global,
    items: &mut Vec<LaidItem>,
    arrays: &Arrays<'_>,
    number: usize,
    object: &Object,
) -> Result<(), Memory>
    ensures { IfOk result (λ _. map movable_of items.new.items ≡ map movable_of items.old.items ++ unless (is_local object.now.storage) (array_in arrays.now.functions (region_in arrays.now.regions.now) arrays.now.lists.now number (object_of object.now))) }
{
    if is_local(object.storage) {
        return Ok(());
    }
    items.push(array_item(alloc, arrays, number, object)?)?;
    Ok(())
}

/// The items of arrays that aren't local, behind others.
pub fn put_arrays(
    alloc: Global,
    items: &mut Vec<LaidItem>,
    arrays: &Arrays<'_>,
    objects: &[Object],
) -> Result<(), Memory>
    ensures { IfOk result (λ _. map movable_of items.new.items ≡ map movable_of items.old.items ++ arrays_in arrays.now.functions (region_in arrays.now.regions.now) arrays.now.lists.now 0 (map object_of objects.now)) }
{
    for (number, object) in objects.iter().enumerate() {
        put_array(alloc, items, arrays, number, object)?;
    }
    Ok(())
}
