// One pivot of a table.
ghost use Rattle.std.specs.Prelude.{◌≡◌, ◌<◌, length, slice_set, None, Some, IfOk, IfSome, MatchOption, All};
ghost use Rattle.simplex_tables.specs.Pivots.{next_row, next_rows, pivoted};
ghost use Rattle.simplex_tables.specs.Shapes.{IsShaped};

use crate::choosing::has_artificial;
use crate::rows::turned;
use crate::table::Table;
use std::alloc::{AllocError, Global};
use wcc_base::Items;

/// A row after a pivot at a place of the row `base`, or as it is; none where a product is wide.
fn next_row(
    alloc: Global,
    place: usize,
    base: &[i128],
    keep: bool,
    row: &[i128],
) -> Result<Option<Items<i128>>, AllocError>
    requires place { place < length base.now }
    requires long { length row.now ≡ length base.now }
    ensures value { IfOk result (λ o. MatchOption o (next_row place base.now keep row.now ≡ None) (λ r. next_row place base.now keep row.now ≡ Some r)) }
    ensures long { IfOk result (λ o. IfSome o (λ r. length r ≡ length base.now)) }
{
    if keep {
        let same = Vec::from_slice(alloc, row)?;
        return Ok(Some(Items::new(same)));
    }
    match turned(alloc, place, base, row)? {
        None => Ok(None),
        Some(new) => Ok(Some(Items::new(new))),
    }
}

/// All rows after a pivot with the row of that number, which is `base`; none where a product is wide.
fn next_rows(
    alloc: Global,
    place: usize,
    base: &[i128],
    number: usize,
    rows: &[Items<i128>],
) -> Result<Option<Vec<Items<i128>>>, AllocError>
    requires place { place < length base.now }
    requires long { All (λ r. length r ≡ length base.now) rows.now }
    ensures value { IfOk result (λ o. MatchOption o (next_rows place base.now number 0 rows.now ≡ None) (λ v. next_rows place base.now number 0 rows.now ≡ Some v.items)) }
    ensures long { IfOk result (λ o. IfSome o (λ v. All (λ r. length r ≡ length base.now) v.items)) }
    ensures count { IfOk result (λ o. IfSome o (λ v. length v.items ≡ length rows.now)) }
{
    let mut all = Vec::new(alloc);
    for i in 0..rows.len() {
        match next_row(alloc, place, base, i == number, rows[i].as_slice())? {
            None => return Ok(None),
            Some(new) => all.push(new)?,
        }
    }
    Ok(Some(all))
}

/// The variables that rows are solved for, with another one for the row of that number.
fn next_owns(
    alloc: Global,
    owns: &[usize],
    number: usize,
    own: usize,
) -> Result<Items<usize>, AllocError>
    requires { number < length owns.now }
    ensures { IfOk result (λ v. v ≡ slice_set owns.now number own) }
{
    let mut next = Vec::from_slice(alloc, owns)?;
    next[number] = own;
    Ok(Items::new(next))
}

/// A table after a pivot that takes the variable `place` in and leaves the row of that number; none where one of its
/// products passes 2^120.
pub(crate) fn pivoted(
    alloc: Global,
    place: usize,
    number: usize,
    width: usize,
    table: &Table,
) -> Result<Option<Table>, AllocError>
    requires shape { IsShaped width table.now }
    requires place { place < width }
    requires number { number < length table.now.rows }
    ensures value { IfOk result (λ o. MatchOption o (pivoted place number table.now ≡ None) (λ b. pivoted place number table.now ≡ Some b)) }
    ensures shape { IfOk result (λ o. IfSome o (IsShaped width)) }
{
    let rows = table.rows.as_slice();
    let base = rows[number].as_slice();
    let owns = next_owns(alloc, table.owns.as_slice(), number, place)?;
    let keep = !has_artificial(owns.as_slice());
    let Some(rows) = next_rows(alloc, place, base, number, rows)? else {
        return Ok(None);
    };
    let Some(one) = next_row(alloc, place, base, keep, table.one.as_slice())? else {
        return Ok(None);
    };
    let Some(two) = next_row(alloc, place, base, false, table.two.as_slice())? else {
        return Ok(None);
    };
    Ok(Some(Table {
        owns,
        rows: Items::new(rows),
        one,
        two,
    }))
}
