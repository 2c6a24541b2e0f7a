// Which items may be worth placing, and whether all of them fit.
ghost use Rattle.std.specs.Prelude.{◌≡◌, ◌<◌, ◌≤◌, ◌++◌, true, false, map, IfOk, OnOk};
ghost use Rattle.spm_placement.specs.Sets.{number};
ghost use Rattle.spm_placement.specs.Tops.{all_words, is_useful, useful};

use super::item::{Item, words_of, worth_of};
use std::alloc::Global;
use wcc_base::Memory;

/// Whether an item gains something and fits by itself.
#[tactic(auto, using(crate::proofs::Useful::too_large, crate::proofs::Useful::some_use, crate::proofs::Useful::no_use))]
fn is_useful(item: &Item, words: usize) -> bool
    ensures { result ≡ is_useful words item.now }
{
    if words < words_of(item) {
        return false;
    }
    if worth_of(item) == 0 {
        return false;
    }
    true
}

pub fn useful(alloc: Global, items: &[Item], words: usize) -> Result<Vec<Item>, Memory>
    ensures { IfOk result (λ kept. kept.items ≡ useful words items.now) }
{
    let mut kept = Vec::new(alloc);
    for item in items {
        if is_useful(item, words) {
            kept.push(*item)?;
        }
    }
    Ok(kept)
}

/// Whether all of them fit together.
pub fn all_fit(items: &[Item], words: usize) -> bool
    ensures fit { result ≡ true → all_words items.now ≤ words }
    ensures not { result ≡ false → words < all_words items.now }
{
    let mut left = words;
    for item in items {
        if left < words_of(item) {
            return false;
        }
        left -= words_of(item);
    }
    true
}

/// Takes all of them.
pub fn take_all(items: &[Item], chosen: &mut Vec<u32>) -> Result<(), Memory>
    ensures { OnOk result (chosen.new.items ≡ chosen.old.items ++ map number items.now) }
{
    for item in items {
        chosen.push(item.id)?;
    }
    Ok(())
}
