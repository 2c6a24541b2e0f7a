// Which variable is taken in, and which row is left.
ghost use Rattle.std.specs.Prelude.{◌≡◌, ℕ, ◌+◌, ◌-◌, ◌<◌, ◌≤◌, ◌<ℤ◌, pos, length, IfSome};
ghost use Rattle.simplex_tables.specs.Choices.{is_among, in_first, objective, first_negative, entering, right, goes_first, better, considered, leaving};
ghost use Rattle.simplex_tables.specs.Shapes.{IsShaped, IsChoice};

use crate::table::Table;
use frac128::compare_ratios;
use std::cmp::Ordering;

/// A row that may be left: its number, its own variable, its right side, and its number at the variable that goes in.
#[derive(Clone, Copy)]
pub struct Choice {
    pub row: usize,
    pub own: usize,
    pub top: i128,
    pub bottom: i128,
}

/// Whether one of these is 0, the artificial variable.
pub(crate) fn has_artificial(owns: &[usize]) -> bool
    ensures { result ≡ is_among 0 owns.now }
{
    for i in 0..owns.len() {
        if owns[i] == 0 {
            return true;
        }
    }
    false
}

/// Whether the artificial variable owns a row.
pub(crate) fn in_first(table: &Table) -> bool
    ensures { result ≡ in_first table.now }
{
    has_artificial(table.owns.as_slice())
}

/// The objective of the phase.
fn objective(width: usize, table: &Table) -> &[i128]
    requires { IsShaped width table.now }
    ensures value { result.now ≡ objective table.now }
    ensures long { length result.now ≡ width }
{
    if in_first(table) {
        return table.one.as_slice();
    }
    table.two.as_slice()
}

/// The first of these numbers that is negative, counted from 1.
fn first_negative(row: &[i128]) -> Option<usize>
    ensures value { result ≡ first_negative 1 row.now }
    ensures least { IfSome result (λ t. 1 ≤ t) }
    ensures within { IfSome result (λ t. t < 1 + length row.now) }
{
    for i in 0..row.len() {
        if row[i] < 0 {
            return Some(1 + i);
        }
    }
    None
}

/// The variable that goes in, of so many, if one improves the objective.
pub(crate) fn entering(variables: usize, width: usize, table: &Table) -> Option<usize>
    requires shape { IsShaped width table.now }
    requires some { 0 < variables }
    requires fits { variables ≤ width }
    ensures value { result ≡ entering variables table.now }
    ensures within { IfSome result (λ t. t < variables) }
{
    first_negative(&objective(width, table)[1..variables])
}

/// The right side of a row.
pub fn right(row: &[i128]) -> i128
    requires { 0 < length row.now }
    ensures { result ≡ right row.now }
{
    row[row.len() - 1]
}

fn goes_first(a: Choice, b: Choice) -> bool
    requires a { pos 0 <ℤ a.bottom }
    requires b { pos 0 <ℤ b.bottom }
    ensures { result ≡ goes_first a b }
{
    match compare_ratios(a.top, a.bottom, b.top, b.bottom) {
        Ordering::Less => true,
        Ordering::Equal => a.own < b.own,
        Ordering::Greater => false,
    }
}

fn better(best: Option<Choice>, choice: Choice) -> Option<Choice>
    requires best { IfSome best (λ c. pos 0 <ℤ c.bottom) }
    requires choice { pos 0 <ℤ choice.bottom }
    ensures value { result ≡ better best choice }
    ensures bottom { IfSome result (λ c. pos 0 <ℤ c.bottom) }
    ensures row { (n : ℕ) → IfSome best (λ c. c.row < n) → choice.row < n → IfSome result (λ c. c.row < n) }
{
    match best {
        None => Some(choice),
        Some(best) => {
            if goes_first(choice, best) {
                return Some(choice);
            }
            Some(best)
        }
    }
}

/// The better one of a row and of those before it.
fn considered(
    place: usize,
    number: usize,
    own: usize,
    row: &[i128],
    best: Option<Choice>,
) -> Option<Choice>
    requires place { place < length row.now }
    requires best { IfSome best (IsChoice number) }
    ensures value { result ≡ considered place number own row.now best }
    ensures choice { IfSome result (IsChoice (number + 1)) }
{
    if row[place] > 0 {
        let choice = Choice {
            row: number,
            own,
            top: right(row),
            bottom: row[place],
        };
        return better(best, choice);
    }
    best
}

/// The row that is left for a variable, if there is one.
pub(crate) fn leaving(place: usize, width: usize, table: &Table) -> Option<Choice>
    requires shape { IsShaped width table.now }
    requires place { place < width }
    ensures value { result ≡ leaving place table.now }
    ensures within { IfSome result (IsChoice (length table.now.rows)) }
{
    let owns = table.owns.as_slice();
    let rows = table.rows.as_slice();
    let mut best = None;
    for i in 0..rows.len() {
        best = considered(place, i, owns[i], rows[i].as_slice(), best);
    }
    best
}
