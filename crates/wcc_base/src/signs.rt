// Numbers in two's complement.
ghost use Rattle.std.specs.Prelude.{◌≡◌, ◌≤◌, ◌%◌, ◌^◌};
ghost use Rattle.wcc_base.specs.Signs.{signed_of};

/// The number that the low `bits` bits of a word stand for in two's complement (C11 6.2.6.2).
pub fn sign_extend(word: u32, bits: u32) -> i32
    requires some { 1 ≤ bits }
    requires most { bits ≤ 32 }
    ensures { result ≡ signed_of bits (word % 2 ^ bits) }
{
    let low = u64::from(word) % (1u64 << bits);
    if low < 1u64 << (bits - 1) {
        low as i32
    } else {
        (low as i64 - (1i64 << bits)) as i32
    }
}
