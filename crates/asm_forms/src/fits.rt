// Whether items reach their targets.
ghost use Rattle.std.specs.Prelude.{◌≡◌, ℕ, ◌+◌, ◌<◌, ◌≤◌, ◌^◌, ◌&&◌};
ghost use Rattle.rv_core.specs.Instructions.{is_within, is_multiple};
ghost use Rattle.rv_core.specs.declared.row.Condition.{Condition};
ghost use Rattle.asm_items.specs.Offsets.{offset};
ghost use Rattle.asm_items.specs.Items.{size, total, jump_words, branch_words, all_words, in_rows};
ghost use Rattle.asm_items.specs.Placings.{blocks_size, blocks_words};
ghost use Rattle.asm_writing.specs.Targets.{starts_in, words_to, AreLow};
ghost use Rattle.asm_forms.specs.Sound.{IsSound, AreSound, BlocksSound};

use super::distances::{is_within, offset_to};
use asm_items::{Form, Item};
use asm_writing::{bytes_of, size_of, target_of};
use wcc_base::Items;

/// Whether an instruction whose offsets are even and below a bound leads from one address to another.
fn reaches(bound: u32, at: u32, to: u32) -> bool
    requires bound { bound ≤ 2 ^ 20 }
    requires at { at ≤ 2 ^ 30 }
    requires to { to < 2 ^ 30 }
    ensures { result ≡ (is_within bound (offset at to) && is_multiple 1 (offset at to)) }
{
    let offset = offset_to(at, to);
    is_within(bound, offset) && offset.cast_unsigned() % 2 == 0
}

fn jump_fits(far: bool, at: u32, to: u32) -> bool
    requires at { at ≤ 2 ^ 30 }
    requires to { to < 2 ^ 30 }
    ensures { (link : ℕ) → link < 32 → result ≡ in_rows (jump_words far link at to) }
{
    far || reaches(0x10_0000, at, to)
}

fn branch_fits(form: Form, at: u32, to: u32) -> bool
    requires at { at + 4 ≤ 2 ^ 30 }
    requires to { to < 2 ^ 30 }
    ensures { (condition : Condition) (left right : ℕ) → left < 32 → right < 32 → result ≡ in_rows (branch_words form condition left right at to) }
{
    match form {
        Form::Short => reaches(0x1000, at, to),
        Form::Inverted => jump_fits(false, at + 4, to),
        Form::Far => true,
    }
}

/// Whether an item at an address reaches another.
fn item_fits(item: &Item, at: u32, to: u32) -> bool
    requires sound { IsSound item.now }
    requires room { at + size item.now ≤ 2 ^ 30 }
    requires to { to < 2 ^ 30 }
    ensures { result ≡ in_rows (words_to at to item.now) }
{
    match item {
        Item::Single(_) => true,
        Item::Jump { far, .. } => jump_fits(*far, at, to),
        Item::Call { far, .. } => jump_fits(*far, at, to),
        Item::Branch { form, .. } => branch_fits(*form, at, to),
        Item::Return => true,
        Item::Exit => true,
    }
}

fn block_fits(starts: &[Items<u32>], function: usize, at: u32, items: &[Item]) -> bool
    requires low { AreLow starts.now }
    requires sound { AreSound items.now }
    requires room { at + total items.now ≤ 2 ^ 30 }
    ensures { result ≡ in_rows (all_words (starts_in starts.now) function at items.now) }
{
    let mut next = at;
    for item in items {
        if !item_fits(item, next, target_of(starts, function, item)) {
            return false;
        }
        next += size_of(item);
    }
    true
}

/// Whether each item of a function that stands at an address reaches its target.
pub fn blocks_fit(starts: &[Items<u32>], function: usize, at: u32, blocks: &[Items<Item>]) -> bool
    requires low { AreLow starts.now }
    requires sound { BlocksSound blocks.now }
    requires room { at + blocks_size blocks.now ≤ 2 ^ 30 }
    ensures { result ≡ in_rows (blocks_words (starts_in starts.now) function at blocks.now) }
{
    let mut next = at;
    for block in blocks {
        if !block_fits(starts, function, next, block.as_slice()) {
            return false;
        }
        next += bytes_of(block.as_slice());
    }
    true
}
