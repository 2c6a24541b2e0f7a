// Which items are chosen.
ghost use Rattle.std.specs.Prelude.{All, IfOk, IfSome};
ghost use Rattle.spm_placement.specs.Sets.{HasSmallGain, HasWholeWords};

use crate::numbers::shown;
use spm_placement::{Item, choose};
use std::alloc::Global;
use wcc_base::Memory;

// An item, if its size is one of whole words and its gain is small enough to be told apart.
fn item(id: u32, size: u32, gain: i128) -> Option<Item>
    ensures small { IfSome result HasSmallGain }
    ensures whole { IfSome result HasWholeWords }
{
    if size % 4 != 0 {
        return None;
    }
    if gain.unsigned_abs() >= 1 << 110 {
        return None;
    }
    Some(Item { id, size, gain })
}

// Its number, its bytes and its gain.
fn item_of(text: &str) -> Option<Item>
    ensures small { IfSome result HasSmallGain }
    ensures whole { IfSome result HasWholeWords }
{
    let (id, rest) = text.split_once(' ')?;
    let (size, gain) = rest.split_once(' ')?;
    item(id.parse().ok()?, size.parse().ok()?, gain.parse().ok()?)
}

fn items_of(alloc: Global, text: &str) -> Result<Vec<Item>, Memory>
    ensures small { IfOk result (λ v. All HasSmallGain v.items) }
    ensures whole { IfOk result (λ v. All HasWholeWords v.items) }
{
    let mut items = Vec::new(alloc);
    for word in text.split(", ") {
        if let Some(item) = item_of(word) {
            items.push(item)?;
        }
    }
    Ok(items)
}

pub fn choice_answer(alloc: Global, line: &str) -> Result<String, Memory> {
    let Some((capacity, rest)) = line.split_once(' ') else {
        return Ok(String::from_str(alloc, "no items")?);
    };
    let capacity: u32 = capacity.parse().unwrap_or(0);
    let items = items_of(alloc, rest)?;
    if capacity > 65536 || items.len() > 131072 {
        return Ok(String::from_str(alloc, "too much")?);
    }
    let chosen = choose(alloc, &items, capacity)?;
    shown(alloc, &chosen)
}
