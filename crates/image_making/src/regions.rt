// The regions of arrays.
ghost use Rattle.std.specs.Prelude.{◌≡◌, ℕ, false, map, IfOk, slice_index_or};
ghost use Rattle.rv_core.specs.declared.regions.Region.TheVariants.{Ram};
ghost use Rattle.low_ir.specs.View.{object_of};
ghost use Rattle.low_ir.specs.Placings.{placed_of};
ghost use Rattle.image_frames.specs.Memories.{regions_of};
ghost use Rattle.image_making.specs.Regions.{stored, region, regions_from};

use image_memory::Placement;
use low_ir::LowReg;
use low_ir::object::{Object, Storage};
use rv_core::Region;
use std::alloc::Global;
use wcc_base::Memory;

/// Where an array lies that isn't placed in the scratchpad.
fn stored(storage: Storage) -> Region
    ensures { result ≡ stored storage }
{
    match storage {
        Storage::Constant => Region::Flash,
        Storage::Global => Region::Ram,
        Storage::Local => Region::Ram,
    }
}

fn region(placement: &Placement, number: usize, object: &Object) -> Region
    ensures { result ≡ region (slice_index_or placement.now.objects number false) (object_of object.now).storage }
{
    match placement.objects.get(number) {
        Some(true) => Region::Spm,
        Some(false) => stored(object.storage),
        None => stored(object.storage),
    }
}

fn regions(alloc: Global, code: &LowReg, placement: &Placement) -> Result<Vec<Region>, Memory>
    ensures { IfOk result (λ r. r.items ≡ regions_from placement.now.objects 0 (map object_of code.now.low.objects.items)) }
{
    let mut regions = Vec::new(alloc);
    for (number, object) in code.low.objects.iter().enumerate() {
        regions.push(region(placement, number, object))?;
    }
    Ok(regions)
}

/// By array, the region in which it lies.
pub fn array_regions(
    alloc: Global,
    code: &LowReg,
    placement: &Placement,
) -> Result<Vec<Region>, Memory>
    ensures { IfOk result (λ r. (o : ℕ) → regions_of placement.now (placed_of code.now) o ≡ slice_index_or r.items o Ram) }
{
    let regions = regions(alloc, code, placement)?;
    Ok(regions)
}
