// The regions in which arrays lie.
ghost use Rattle.std.specs.Prelude.{◌≡◌, map, slice_index_or, IfOk};
ghost use Rattle.rv_core.specs.declared.regions.Region.TheVariants.{Flash, Ram, Spm};
ghost use Rattle.low_ir.specs.View.{claim_of};
ghost use Rattle.claims_definition.specs.Lines.{frame_letters, letters_of, same_region, touches_region};
ghost use Rattle.claims_regions.specs.Seen.{letters_in, view};
ghost use Rattle.claims_making.specs.Sights.{no_letters, region_in, seen_in};

use claims_regions::Touched;
use claims_touches::Touch;
use rv_core::Region;
use std::alloc::Global;
use wcc_base::Memory;

/// The regions of arrays, and of the arrays of claims.
#[derive(Clone, Copy)]
pub struct Sights<'a> {
    /// By array. An array that the list doesn't reach lies in RAM.
    pub regions: &'a [Region],
    /// By claim.
    pub claims: &'a [Touched],
}

fn is_flash(region: Region) -> bool
    ensures { result ≡ same_region Flash region }
{
    match region {
        Region::Flash => true,
        Region::Spm => false,
        Region::Ram => false,
    }
}

fn is_spm(region: Region) -> bool
    ensures { result ≡ same_region Spm region }
{
    match region {
        Region::Flash => false,
        Region::Spm => true,
        Region::Ram => false,
    }
}

fn is_ram(region: Region) -> bool
    ensures { result ≡ same_region Ram region }
{
    match region {
        Region::Flash => false,
        Region::Spm => false,
        Region::Ram => true,
    }
}

fn is_same(left: Region, right: Region) -> bool
    ensures { result ≡ same_region left right }
{
    match left {
        Region::Flash => is_flash(right),
        Region::Spm => is_spm(right),
        Region::Ram => is_ram(right),
    }
}

fn region_at(regions: &[Region], array: u32) -> Region
    ensures { result ≡ region_in regions.now array }
{
    match regions.get(array as usize) {
        Some(region) => *region,
        None => Region::Ram,
    }
}

/// Whether one of these arrays lies in a region.
fn touches_region(regions: &[Region], region: Region, arrays: &[u32]) -> bool
    ensures { result ≡ touches_region (region_in regions.now) region arrays.now }
{
    for array in arrays {
        if is_same(region, region_at(regions, *array)) {
            return true;
        }
    }
    false
}

fn touched_of(regions: &[Region], arrays: &[u32]) -> Touched
    ensures { letters_in result ≡ letters_of (region_in regions.now) arrays.now }
{
    Touched {
        flash: touches_region(regions, Region::Flash, arrays),
        spm: touches_region(regions, Region::Spm, arrays),
        ram: touches_region(regions, Region::Ram, arrays),
    }
}

/// The regions of the arrays of each claim.
pub fn touched_by_claim(
    alloc: Global,
    regions: &[Region],
    claims: &[Vec<u32>],
) -> Result<Vec<Touched>, Memory>
    ensures { IfOk result (λ v. map letters_in v.items ≡ map (letters_of (region_in regions.now)) (map claim_of claims.now)) }
{
    let mut by_claim = Vec::new(alloc);
    for claim in claims {
        by_claim.push(touched_of(regions, claim.as_slice()))?;
    }
    Ok(by_claim)
}

/// Frames lie in RAM.
fn touched_frame() -> Touched
    ensures { letters_in result ≡ frame_letters }
{
    Touched {
        flash: false,
        spm: false,
        ram: true,
    }
}

fn touched_by(claims: &[Touched], claim: u32) -> Touched
    ensures { letters_in result ≡ slice_index_or (map letters_in claims.now) claim no_letters }
{
    match claims.get(claim as usize) {
        Some(touched) => *touched,
        None => Touched {
            flash: false,
            spm: false,
            ram: false,
        },
    }
}

/// The regions of what is touched.
pub fn seen(sights: &Sights<'_>, touch: Touch) -> Option<Touched>
    ensures { view result ≡ seen_in sights.now touch }
{
    match touch {
        Touch::Nothing => None,
        Touch::Frame => Some(touched_frame()),
        Touch::Array(array) => Some(touched_of(sights.regions, &[array])),
        Touch::Claim(claim) => Some(touched_by(sights.claims, claim)),
    }
}
