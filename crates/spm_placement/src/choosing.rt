// The best set of items that fits.
ghost use Rattle.std.specs.Prelude.{◌+◌, ◌-◌, ◌<◌, ◌≤◌, drop, length, take, All, IfOk, OnOk};
ghost use Rattle.spm_placement.specs.Sets.{AreBest, HasSmallGain, HasWholeWords};
ghost use Rattle.spm_placement.specs.Tops.{HasChosen, HasChosenBefore};
ghost use Rattle.spm_placement.specs.Rows.{HasTops};

use super::fitting::{all_fit, take_all, useful};
use super::item::Item;
use super::rows::{Cell, no_row, row_before};
use std::alloc::Global;
use wcc_base::Memory;

/// How many parts a list is cut into, at most: each has a row until the parts before it have been chosen from.
const PARTS: usize = 32;

/// Where the last part of so many of the items begins.
fn start_of(count: usize, upto: usize) -> usize
    requires count { 1 < count }
    requires most { count ≤ 131072 }
    requires some { 0 < upto }
    requires upto { upto ≤ count }
    ensures before { result < upto }
    ensures part { upto - result < count }
{
    upto.saturating_sub((count + PARTS - 1) / PARTS)
}

/// Chooses among so many of the items, by the row of those behind them, and answers how many words are left for these.
#[cycle(parts)]
fn choose_before(
    alloc: Global,
    items: &[Item],
    upto: usize,
    behind: &[Cell],
    chosen: &mut Vec<u32>,
) -> Result<usize, Memory>
    requires some { 1 < length items.now }
    requires count { length items.now ≤ 131072 }
    requires upto { upto ≤ length items.now }
    requires gains { All HasSmallGain items.now }
    requires words { 0 < length behind.now }
    requires most { length behind.now ≤ 16385 }
    requires tops { HasTops (drop upto items.now) behind.now }
    ensures { IfOk result (λ left. HasChosenBefore (take upto items.now) (drop upto items.now) (length behind.now - 1) left chosen.old.items chosen.new.items) }
{
    if upto == 0 {
        return Ok(behind.len() - 1);
    }
    let from = start_of(items.len(), upto);
    let row = row_before(alloc, behind, items, from, upto)?;
    let share = choose_before(alloc, items, from, &row, chosen)?;
    let left = row[share].left;
    choose_among(alloc, &items[from..upto], share - left, chosen)?;
    Ok(left)
}

/// Behind those that are chosen: all that are useful, if they fit; or else part by part.
#[cycle(parts)]
fn choose_among(
    alloc: Global,
    items: &[Item],
    words: usize,
    chosen: &mut Vec<u32>,
) -> Result<(), Memory>
    requires count { length items.now ≤ 131072 }
    requires words { words ≤ 16384 }
    requires gains { All HasSmallGain items.now }
    ensures { OnOk result (HasChosen items.now words chosen.old.items chosen.new.items) }
{
    let useful = useful(alloc, items, words)?;
    if all_fit(&useful, words) {
        take_all(&useful, chosen)?;
        return Ok(());
    }
    let row = no_row(alloc, words)?;
    choose_before(alloc, &useful, useful.len(), &row, chosen)?;
    Ok(())
}

/// The numbers of the items to place in so many bytes: they fit, and no others that fit gain more. None is placed that
/// gains nothing. They are in the order of the items.
#[tactic(auto, using(crate::proofs::Chosen::best_chosen))]
pub fn choose(alloc: Global, items: &[Item], capacity: u32) -> Result<Vec<u32>, Memory>
    requires capacity { capacity ≤ 65536 }
    requires count { length items.now ≤ 131072 }
    requires sizes { All HasWholeWords items.now }
    requires gains { All HasSmallGain items.now }
    ensures { IfOk result (λ ids. AreBest items.now capacity ids.items) }
{
    let words = (capacity / 4) as usize;
    let mut chosen = Vec::new(alloc);
    choose_among(alloc, items, words, &mut chosen)?;
    Ok(chosen)
}
