// Sums in 128 bits.
ghost use Rattle.std.specs.Prelude.{◌≡◌, ◌≤◌, ◌<◌, ◌^◌, ◌+◌, ◌*◌, ◌*ℤ◌, ◌+ℤ◌, pos, unsigned_abs, IsNone, IfSome, ◌↔◌};

/// A sum of whole numbers, with the sum of their absolute values.
#[derive(Clone, Copy)]
pub struct Running {
    pub total: i128,
    pub size: u128,
    pub ghost within: { unsigned_abs total ≤ size },
    pub ghost small: { size < 2 ^ 126 },
}

/// 2 to the 126th.
const WIDE: u128 = 85070591730234615865843651857942052864;

/// The sum of no numbers.
pub fn nothing() -> Running
    ensures total { result.total ≡ pos 0 }
    ensures size { result.size ≡ 0 }
{
    Running { total: 0, size: 0 }
}

/// A sum and one more number, `by` times `number`; none where the absolute values come to 2^126.
pub fn add_term(sum: Running, by: i128, number: i128) -> Option<Running>
    ensures none { IsNone result ↔ (2 ^ 126 ≤ sum.size + unsigned_abs (by *ℤ number)) }
    ensures total { IfSome result (λ r. r.total ≡ sum.total +ℤ (by *ℤ number)) }
    ensures size { IfSome result (λ r. r.size ≡ sum.size + unsigned_abs (by *ℤ number)) }
{
    let term = by.checked_mul(number)?;
    let size = term.unsigned_abs() + sum.size;
    if size >= WIDE {
        None
    } else {
        Some(Running {
            total: sum.total + term,
            size,
        })
    }
}
