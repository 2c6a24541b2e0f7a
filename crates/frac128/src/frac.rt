//! Fractions in lowest terms.

ghost use Rattle.std.specs.Prelude.{◌≡◌, ◌⊎◌, ◌↔◌, ℤ, pos, ◌+ℤ◌, ◌*ℤ◌, ◌<ℤ◌, IfSome, IsNone};
ghost use Rattle.std.specs.Int.{IsGcd};
ghost use Rattle.std.specs.Option.{SomeIff};
ghost use Rattle.frac128.specs.Frac.{IsSmall, IsWide, IsLowest, IsSameRatio, IsFloor};

use std::cmp::Ordering;

/// The greatest absolute value of a part. A sum or difference of two such numbers fits an `i128`.
const MOST: u128 = 1 << 126;

/// A fraction in lowest terms with a positive denominator, so equal fractions have equal parts.
///
/// Each part is at most 2^126 in absolute value.
#[derive(Clone, Copy)]
pub struct Frac {
    pub num: i128,
    pub den: i128,
    pub ghost positive: { pos 0 <ℤ den },
    pub ghost num_small: { IsSmall num },
    pub ghost den_small: { IsSmall den },
    pub ghost lowest: { IsLowest num den },
}

impl Frac {
    ghost use Rattle.frac128.specs.Arithmetic.{IsSumOf, IsSumWide, IsProductOf, IsProductWide, IsOrderOf, IsOrderWide};

    /// The fraction `num`/`den`; `None` where `den` is 0, or where one of the two, as given, passes
    /// 2^126 in absolute value.
    pub fn new(num: i128, den: i128) -> Option<Frac>
        ensures none { IsNone result ↔ ((den ≡ pos 0) ⊎ IsWide num ⊎ IsWide den) }
        ensures value { IfSome result (λ f. IsSameRatio f.num f.den num den) }
    {
        if den == 0 || num.unsigned_abs() > MOST || den.unsigned_abs() > MOST {
            None
        } else if den < 0 {
            Some(Self::reduced(-num, -den))
        } else {
            Some(Self::reduced(num, den))
        }
    }

    /// The numerator, which has the fraction's sign.
    pub fn num(&self) -> i128
        ensures { result ≡ self.now.num }
    {
        self.num
    }

    /// The denominator, at least 1.
    pub fn den(&self) -> i128
        ensures { result ≡ self.now.den }
    {
        self.den
    }

    /// The sum of a/b and c/d; `None` where a * d, c * b, b * d or a * d + c * b passes 2^126 in
    /// absolute value.
    pub fn add(&self, other: &Frac) -> Option<Frac>
        ensures none { IsNone result ↔ IsSumWide self.now other.now }
        ensures value { IfSome result (IsSumOf self.now other.now) }
    {
        let left = product(self.num, other.den)?;
        let right = product(other.num, self.den)?;
        let den = product(self.den, other.den)?;
        let num = sum(left, right)?;
        Some(Self::reduced(num, den))
    }

    /// The product of a/b and c/d; `None` where a * c or b * d passes 2^126 in absolute value.
    pub fn mul(&self, other: &Frac) -> Option<Frac>
        ensures none { IsNone result ↔ IsProductWide self.now other.now }
        ensures value { IfSome result (IsProductOf self.now other.now) }
    {
        let num = product(self.num, other.num)?;
        let den = product(self.den, other.den)?;
        Some(Self::reduced(num, den))
    }

    /// How a/b compares with c/d; `None` where a * d or c * b passes 2^126 in absolute value.
    pub fn cmp(&self, other: &Frac) -> Option<Ordering>
        ensures none { IsNone result ↔ IsOrderWide self.now other.now }
        ensures value { IfSome result (IsOrderOf self.now other.now) }
    {
        let left = product(self.num, other.den)?;
        let right = product(other.num, self.den)?;
        Some(left.cmp(&right))
    }

    /// The greatest whole number that is not greater: -2 for -3/2.
    pub fn floor(&self) -> i128
        ensures { IsFloor self.now.num self.now.den result }
    {
        self.num.div_euclid(self.den)
    }

    // Both parts over their greatest common divisor.
    fn reduced(num: i128, den: i128) -> Frac
        requires positive { pos 0 <ℤ den }
        requires num_small { IsSmall num }
        requires den_small { IsSmall den }
        ensures { IsSameRatio result.num result.den num den }
    {
        let divisor = gcd(num.unsigned_abs(), den.unsigned_abs()) as i128;
        Frac {
            num: num / divisor,
            den: den / divisor,
        }
    }
}

// The greatest common divisor, by Euclid's algorithm.
fn gcd(a: u128, b: u128) -> u128
    ensures { IsGcd a b result }
{
    let mut x = a;
    let mut y = b;
    while y != 0 {
        (x, y) = (y, x % y);
    }
    x
}

fn product(a: i128, b: i128) -> Option<i128>
    ensures { SomeIff result (IsSmall (a *ℤ b)) (a *ℤ b) }
{
    small(a.checked_mul(b)?)
}

fn sum(a: i128, b: i128) -> Option<i128>
    ensures { SomeIff result (IsSmall (a +ℤ b)) (a +ℤ b) }
{
    small(a.checked_add(b)?)
}

// The number itself, where a part may be it.
fn small(n: i128) -> Option<i128>
    ensures { SomeIff result (IsSmall n) n }
{
    (n.unsigned_abs() <= MOST).then_some(n)
}
