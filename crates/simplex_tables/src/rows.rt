// One row of a pivot, in whole numbers.
ghost use Rattle.std.specs.Prelude.{◌≡◌, ◌↔◌, ◌<◌, ◌≤◌, ◌^◌, ◌||◌, ◌-ℤ◌, ◌*ℤ◌, unsigned_abs, length, true, IfOk, IfSome, IsNone};
ghost use Rattle.std.specs.Int.{IsGcd};
ghost use Rattle.std.specs.Option.{SomeIff};
ghost use Rattle.simplex_tables.specs.Rows.{combined, gcd, divisor, part, divided, reduced, turned, is_wide, any_wide, turns_wide};

use std::alloc::{AllocError, Global};

/// The greatest absolute value of a product.
const MOST: u128 = 1 << 120;

/// The greatest common divisor, by Euclid's steps.
pub fn gcd(a: u128, b: u128) -> u128
    ensures { result ≡ gcd a b }
{
    common(a, b)
}

fn common(a: u128, b: u128) -> u128
    ensures { IsGcd a b result }
{
    let mut x = a;
    let mut y = b;
    while y != 0 {
        let rest = x % y;
        x = y;
        y = rest;
    }
    x
}

/// The greatest common divisor of a row's numbers, 0 where all are 0.
fn divisor(row: &[i128]) -> u128
    ensures { result ≡ divisor row.now }
{
    let mut g = 0;
    for i in 0..row.len() {
        g = gcd(g, row[i].unsigned_abs());
    }
    g
}

fn part(g: u128, a: i128) -> i128
    requires { 0 < g }
    ensures { result ≡ part g a }
{
    if a < 0 {
        if a == i128::MIN && g == 1 {
            a
        } else {
            -((a.unsigned_abs() / g) as i128)
        }
    } else {
        (a as u128 / g) as i128
    }
}

fn divided(alloc: Global, g: u128, row: &[i128]) -> Result<Vec<i128>, AllocError>
    requires { 0 < g }
    ensures { IfOk result (λ v. v.items ≡ divided g row.now) }
{
    let mut out = Vec::new(alloc);
    for i in 0..row.len() {
        out.push(part(g, row[i]))?;
    }
    Ok(out)
}

/// A row without a common divisor above 1.
pub fn reduced(alloc: Global, row: &[i128]) -> Result<Vec<i128>, AllocError>
    ensures { IfOk result (λ v. v.items ≡ reduced row.now) }
{
    let g = divisor(row);
    if g == 0 {
        return Ok(Vec::from_slice(alloc, row)?);
    }
    divided(alloc, g, row)
}

fn product(a: i128, b: i128) -> Option<i128>
    ensures { SomeIff result (unsigned_abs (a *ℤ b) ≤ 2 ^ 120) (a *ℤ b) }
{
    let p = a.checked_mul(b)?;
    if p.unsigned_abs() <= MOST {
        Some(p)
    } else {
        None
    }
}

fn minus(x: i128, y: i128) -> i128
    requires left { unsigned_abs x ≤ 2 ^ 120 }
    requires right { unsigned_abs y ≤ 2 ^ 120 }
    ensures { result ≡ x -ℤ y }
{
    x - y
}

fn step(p: i128, q: i128, a: i128, b: i128) -> Option<i128>
    ensures none { IsNone result ↔ ((is_wide (p *ℤ a) || is_wide (q *ℤ b)) ≡ true) }
    ensures some { IfSome result (λ z. z ≡ (p *ℤ a) -ℤ (q *ℤ b)) }
{
    let x = product(p, a)?;
    let y = product(q, b)?;
    Some(minus(x, y))
}

/// p times a row less q times another; none where a product is wide.
fn combined(
    alloc: Global,
    p: i128,
    q: i128,
    row: &[i128],
    base: &[i128],
) -> Result<Option<Vec<i128>>, AllocError>
    requires { length row.now ≡ length base.now }
    ensures none { IfOk result (λ o. IsNone o ↔ (any_wide p q row.now base.now ≡ true)) }
    ensures some { IfOk result (λ o. IfSome o (λ v. v.items ≡ combined p q row.now base.now)) }
{
    let mut out = Vec::new(alloc);
    for i in 0..row.len() {
        match step(p, q, row[i], base[i]) {
            Some(z) => out.push(z)?,
            None => return Ok(None),
        }
    }
    Ok(Some(out))
}

/// The row that a pivot at a place of the row `base` makes of `row`; none where one of its products passes 2^120.
pub fn turned(
    alloc: Global,
    place: usize,
    base: &[i128],
    row: &[i128],
) -> Result<Option<Vec<i128>>, AllocError>
    requires place { place < length base.now }
    requires long { length row.now ≡ length base.now }
    ensures none { IfOk result (λ o. IsNone o ↔ (turns_wide place base.now row.now ≡ true)) }
    ensures some { IfOk result (λ o. IfSome o (λ v. v.items ≡ turned place base.now row.now)) }
{
    match combined(alloc, base[place], row[place], row, base)? {
        None => Ok(None),
        Some(new) => {
            let new = reduced(alloc, &new)?;
            Ok(Some(new))
        }
    }
}
