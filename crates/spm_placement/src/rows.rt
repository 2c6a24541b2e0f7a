// Rows: by capacity in words, the most that some items are worth, and how it is divided.
ghost use Rattle.std.specs.Prelude.{◌≡◌, ℕ, ◌+◌, ◌-◌, ◌^◌, ◌<◌, ◌≤◌, [], drop, length, slice_set, take, All, IfOk};
ghost use Rattle.spm_placement.specs.Sets.{HasSmallGain};
ghost use Rattle.spm_placement.specs.Rows.{HasTops, IsAdded, IsRow, LeavesRoom, begun, carried, cell_at};

use super::item::{Item, words_of, worth_of};
use std::alloc::Global;
use wcc_base::Memory;

/// What some items are worth in a capacity.
#[derive(Clone, Copy)]
pub struct Cell {
    /// The most.
    pub worth: u128,
    /// How many of the words are left for those items that are behind the first ones.
    pub left: usize,
}

/// The item is taken where it makes more.
fn add_at(row: &mut [Cell], words: usize, worth: u128, at: usize)
    requires fits { words ≤ at }
    requires at { at < length row.now }
    requires room { (cell_at row.now (at - words)).worth + worth < 2 ^ 128 }
    ensures { row.new ≡ slice_set row.old at (carried words worth (cell_at row.old) at) }
{
    let worth = row[at - words].worth + worth;
    if row[at].worth < worth {
        row[at] = Cell {
            worth,
            left: row[at - words].left,
        };
    }
}

/// Adds an item to those of a row, the largest capacity first: what is read is still without it.
fn add(row: &mut [Cell], words: usize, worth: u128)
    requires { LeavesRoom worth row.now }
    ensures { IsAdded words worth 0 row.old row.new }
{
    for i in words..row.len() {
        add_at(row, words, worth, row.len() - 1 - (i - words));
    }
}

/// Adds these of the items, the last one first, to those behind them.
fn add_all(row: &mut [Cell], items: &[Item], from: usize, upto: usize)
    requires from { from ≤ upto }
    requires upto { upto ≤ length items.now }
    requires count { length items.now ≤ 131072 }
    requires gains { All HasSmallGain items.now }
    requires none { IsRow [] (drop upto items.now) row.now }
    ensures long { length row.new ≡ length row.old }
    ensures row { IsRow (take (upto - from) (drop from items.now)) (drop upto items.now) row.new }
{
    for i in 0..upto - from {
        let item = &items[upto - 1 - i];
        add(row, words_of(item), worth_of(item));
    }
}

fn begin_at(row: &mut [Cell], at: usize)
    requires { at < length row.now }
    ensures { row.new ≡ slice_set row.old at (begun at (cell_at row.old at)) }
{
    row[at] = Cell {
        worth: row[at].worth,
        left: at,
    };
}

/// All words are left, until items are added.
fn begin(row: &mut [Cell])
    ensures long { length row.new ≡ length row.old }
    ensures begun { (c : ℕ) → c < length row.old → cell_at row.new c ≡ begun c (cell_at row.old c) }
{
    for at in 0..row.len() {
        begin_at(row, at);
    }
}

fn add_part(row: &mut [Cell], items: &[Item], from: usize, upto: usize)
    requires from { from ≤ upto }
    requires upto { upto ≤ length items.now }
    requires count { length items.now ≤ 131072 }
    requires gains { All HasSmallGain items.now }
    requires tops { HasTops (drop upto items.now) row.now }
    ensures long { length row.new ≡ length row.old }
    ensures row { IsRow (take (upto - from) (drop from items.now)) (drop upto items.now) row.new }
{
    begin(row);
    add_all(row, items, from, upto);
}

/// The row of these of the items, by that of those behind them.
pub fn row_before(
    alloc: Global,
    behind: &[Cell],
    items: &[Item],
    from: usize,
    upto: usize,
) -> Result<Vec<Cell>, Memory>
    requires from { from ≤ upto }
    requires upto { upto ≤ length items.now }
    requires count { length items.now ≤ 131072 }
    requires gains { All HasSmallGain items.now }
    requires tops { HasTops (drop upto items.now) behind.now }
    ensures long { IfOk result (λ row. length row.items ≡ length behind.now) }
    ensures row { IfOk result (λ row. IsRow (take (upto - from) (drop from items.now)) (drop upto items.now) row.items) }
{
    let mut row = Vec::from_slice(alloc, behind)?;
    add_part(&mut row, items, from, upto);
    Ok(row)
}

/// The row of no items, for each capacity up to so many words.
pub fn no_row(alloc: Global, words: usize) -> Result<Vec<Cell>, Memory>
    requires { words ≤ 16384 }
    ensures long { IfOk result (λ row. length row.items ≡ words + 1) }
    ensures tops { IfOk result (λ row. HasTops [] row.items) }
{
    Ok(vec![in alloc; Cell { worth: 0, left: 0 }; words + 1]?)
}
