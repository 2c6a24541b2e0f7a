// The limit of numerators and denominators.
ghost use Rattle.std.specs.Prelude.{◌≡◌, ◌<◌};
ghost use Rattle.simplex_rounds.specs.Limits.{is_narrow, all_narrow};

/// The greatest number, times one more than the number of loop claims.
pub const LIMIT: u128 = 1 << 44;

/// Whether a number, times another one, keeps the limit.
pub(crate) fn is_narrow(number: u128, times: u64) -> bool
    requires { 0 < times }
    ensures { result ≡ is_narrow times number }
{
    number <= LIMIT / u128::from(times)
}

/// Whether each number does.
pub(crate) fn all_narrow(numbers: &[i128], times: u64) -> bool
    requires { 0 < times }
    ensures { result ≡ all_narrow times numbers.now }
{
    for i in 0..numbers.len() {
        if !is_narrow(numbers[i].unsigned_abs(), times) {
            return false;
        }
    }
    true
}
