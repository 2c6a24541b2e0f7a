// Numbers of 32 bits.
ghost use Rattle.std.specs.Prelude.{◌≡◌, ◌+◌, IfOk};

use wcc_base::Memory;

/// A sum; one past 32 bits would number more than fits in memory.
pub fn sum(a: u32, b: u32) -> Result<u32, Memory>
    ensures { IfOk result (λ n. n ≡ a + b) }
{
    match a.checked_add(b) {
        Some(n) => Ok(n),
        None => Err(Memory),
    }
}

/// A number behind another one, by so many.
pub fn offset(a: u32, by: usize) -> Result<u32, Memory>
    ensures { IfOk result (λ n. n ≡ a + by) }
{
    match u32::try_from(by) {
        Ok(by) => sum(a, by),
        Err(_) => Err(Memory),
    }
}
