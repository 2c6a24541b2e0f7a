// Numbers that may pass 2^32.
ghost use Rattle.std.specs.Prelude.{◌≡◌, ◌+◌, ◌*◌, IfOk};

use wcc_base::Memory;

/// A length in 32 bits.
pub fn count(length: usize) -> Result<u32, Memory>
    ensures { IfOk result (λ count. count ≡ length) }
{
    match u32::try_from(length) {
        Ok(count) => Ok(count),
        Err(_) => Err(Memory),
    }
}

pub fn add(left: u32, right: u32) -> Result<u32, Memory>
    ensures { IfOk result (λ sum. sum ≡ left + right) }
{
    match left.checked_add(right) {
        Some(sum) => Ok(sum),
        None => Err(Memory),
    }
}

/// The bytes of so many instructions.
pub fn in_bytes(words: u32) -> Result<u32, Memory>
    ensures { IfOk result (λ bytes. bytes ≡ 4 * words) }
{
    match words.checked_mul(4) {
        Some(bytes) => Ok(bytes),
        None => Err(Memory),
    }
}
