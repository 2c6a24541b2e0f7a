// Counts modulo 2^128.
ghost use Rattle.std.specs.Prelude.{◌≡◌, ◌+◌, ◌*◌, ◌≤◌, ◌<◌, ℕ, length, slice_set};
ghost use Rattle.loop_flows.specs.Passes.{amount_at};
ghost use Rattle.loop_flow_counts.specs.Wraps.{wrapped};
ghost use Rattle.loop_flow_counts.specs.Made.{total};

/// Adds to the count of a place.
pub fn add(counts: &mut [u128], place: usize, count: u128)
    requires { place < length counts.now }
    ensures { counts.new ≡ slice_set counts.old place (wrapped (amount_at counts.old place + count)) }
{
    counts[place] = counts[place].wrapping_add(count);
}

/// All counts together.
fn total(counts: &[u128]) -> u128
    ensures { result ≡ wrapped (total counts.now) }
{
    let mut all: u128 = 0;
    for k in 0..counts.len() {
        all = all.wrapping_add(counts[k]);
    }
    all
}

/// So many for each of some counts.
pub(crate) fn times(number: u32, counts: &[u128]) -> u128
    ensures { result ≡ wrapped (number * total counts.now) }
{
    u128::from(number).wrapping_mul(total(counts))
}

/// Nothing is left at the places from one up to another.
pub(crate) fn clear(counts: &mut [u128], from: usize, to: usize)
    requires { to ≤ length counts.now }
    ensures { (a : ℕ) → from ≤ a → a < to → amount_at counts.new a ≡ 0 }
{
    for place in from..to {
        counts[place] = 0;
    }
}
