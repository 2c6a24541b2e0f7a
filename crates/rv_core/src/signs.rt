// Numbers in two's complement.
ghost use Rattle.std.specs.Prelude.{◌≡◌, ◌<◌, ◌≤◌, ◌^◌};
ghost use Rattle.wcc_base.specs.Signs.{signed_of};

use wcc_base::sign_extend;

/// The number that so many bits stand for in two's complement.
pub fn extend(bits: u32, count: u32) -> i32
    requires some { 1 ≤ count }
    requires most { count ≤ 32 }
    requires fits { bits < 2 ^ count }
    ensures { result ≡ signed_of count bits }
{
    sign_extend(bits, count)
}
