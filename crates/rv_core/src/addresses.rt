// The region of an address.
ghost use Rattle.std.specs.Prelude.{◌≡◌};
ghost use Rattle.rv_core.specs.Regions.{region_of};

use crate::Region;

/// The region in which an address lies.
pub fn region(at: u32) -> Option<Region>
    ensures { result ≡ region_of at }
{
    match at {
        0..0x80_0000 => Some(Region::Flash),
        0x1000_0000..0x1001_0000 => Some(Region::Spm),
        0x2000_0000..0x2020_0000 => Some(Region::Ram),
        _ => None,
    }
}
