// Where the registers of a function stand.
ghost use Rattle.std.specs.Prelude.{◌≡◌, [], ◌∷◌, None, IfSome, drop, map, option_map, slice_get, slice_index_or};
ghost use Rattle.low_ir.specs.Live.{place_of};
ghost use Rattle.low_ir.specs.Places.{place_in, no_placing};
ghost use Rattle.low_ir.specs.Placings.{placed_of, placings_of};
ghost use Rattle.low_ir.specs.View.{block_of, function_of};
ghost use Rattle.register_eval.specs.Laid.{first_mask, laid_function, masks_behind};
ghost use Rattle.register_eval.specs.Tables.{table_of};

use low_ir::{Block, Function, LowReg, Place};

/// The places of a function's registers, as its placing has them.
#[derive(Clone, Copy)]
pub struct Table<'a> {
    places: &'a [Place],
    /// By place of the code: the registers that a call there keeps.
    pub kept: &'a [u32],
    pub slots: u32,
}

impl<'a> Table<'a> {
    /// That of a function; one that the code has no placing for has no slots.
    fn of(code: &'a LowReg, function: u32) -> Table<'a>
        ensures { table_of result ≡ slice_index_or (placings_of code.now) function no_placing }
    {
        match code.placings.get(function as usize) {
            None => Table {
                places: &[],
                kept: &[],
                slots: 0,
            },
            Some(placing) => Table {
                places: placing.places.as_slice(),
                kept: placing.kept.as_slice(),
                slots: placing.slots,
            },
        }
    }

    pub fn place(self, register: u32) -> Place
        ensures { result ≡ place_in (table_of self.entry) register }
    {
        match self.places.get(register as usize) {
            None => Place::Slot(register),
            Some(place) => *place,
        }
    }
}

/// A function of a program, and where its registers stand.
pub fn placed_function<'a>(code: &'a LowReg, number: u32) -> Option<(&'a Function, Table<'a>)>
    ensures { slice_get (placed_of code.now).functions number ≡ option_map (λ f. laid_function (table_of f.1) (function_of f.0.now)) result }
{
    match code.low.functions.get(number as usize) {
        None => None,
        Some(function) => Some((function, Table::of(code, number))),
    }
}

/// The mask of the next instruction, and those behind it.
pub fn next_mask<'a>(masks: &'a [u32]) -> (u32, &'a [u32])
    ensures first { result.0 ≡ first_mask masks.now }
    ensures behind { result.1.now ≡ masks_behind masks.now }
{
    match masks {
        [] => (0, masks),
        [mask, behind @ ..] => (*mask, behind),
    }
}

/// The masks behind so many.
fn masks_from<'a>(masks: &'a [u32], count: usize) -> &'a [u32]
    ensures { result.now ≡ drop count masks.now }
{
    match masks.get(count..) {
        None => &[],
        Some(behind) => behind,
    }
}

/// The first of some blocks, and those behind it.
#[tactic(auto, using(low_eval::proofs::Steps::first_and_rest))]
fn next_block<'a>(blocks: &'a [Block]) -> Option<(&'a Block, &'a [Block])>
    ensures none { result ≡ None → blocks.now ≡ [] }
    ensures some { IfSome result (λ n. blocks.now ≡ n.0.now ∷ n.1.now) }
{
    match blocks {
        [] => None,
        [block, behind @ ..] => Some((block, behind)),
    }
}

/// The masks behind so many blocks.
#[tactic(auto, using(crate::proofs::Masks::behind_block, crate::proofs::Masks::behind_none, crate::proofs::Masks::behind_all))]
fn masks_behind<'a>(kept: &'a [u32], blocks: &[Block], number: u32) -> &'a [u32]
    ensures { result.now ≡ drop (place_of (map block_of blocks.now) number) kept.now }
{
    let mut masks = kept;
    let mut left = blocks;
    for _ in 0..number {
        match next_block(left) {
            None => return masks,
            Some((block, behind)) => {
                masks = masks_from(masks, block.code.len() + 1);
                left = behind;
            }
        }
    }
    masks
}

/// The masks from the beginning of a block on; where no register is kept, the blocks aren't walked.
#[tactic(auto, using(crate::proofs::Masks::none_behind))]
pub fn masks_at<'a>(kept: &'a [u32], blocks: &[Block], number: u32) -> &'a [u32]
    ensures { result.now ≡ drop (place_of (map block_of blocks.now) number) kept.now }
{
    match kept {
        [] => kept,
        [_, ..] => masks_behind(kept, blocks, number),
    }
}
