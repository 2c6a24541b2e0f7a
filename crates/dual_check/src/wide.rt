// Small numbers in 128 bits.
ghost use Rattle.std.specs.Prelude.{◌≡◌, pos, neg_ℤ, ◌-ℤ◌};

/// A number as it is.
pub fn whole(n: u64) -> i128
    ensures { result ≡ pos n }
{
    i128::from(n)
}

/// The same below zero.
pub fn negated(n: u64) -> i128
    ensures { result ≡ neg_ℤ (pos n) }
{
    -i128::from(n)
}

/// The difference of two numbers.
pub fn difference(a: u32, b: u32) -> i128
    ensures { result ≡ pos a -ℤ pos b }
{
    i128::from(a) - i128::from(b)
}

/// A number with the other sign.
pub fn opposite(number: i64) -> i128
    ensures { result ≡ neg_ℤ number }
{
    -i128::from(number)
}
