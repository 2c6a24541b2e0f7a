// What blocks count on, as they begin, and where other blocks lead to them.
ghost use Rattle.std.specs.Prelude.{◌≡◌, true, [], Some, map, All, slice_index_or};
ghost use Rattle.low_ir.specs.View.{end_of};
ghost use Rattle.pass_copy_propagation.specs.Knowing.{Knowing, list_of, stands};
ghost use Rattle.pass_copy_propagation.specs.Making.{Begins, IsReady};

use super::known::Known;
use low_ir::End;

/// The list of a block.
pub fn list_at(lists: &[Vec<u32>], block: usize) -> &[u32]
    ensures { result.now ≡ slice_index_or (map list_of lists.now) block [] }
{
    match lists.get(block) {
        None => &[],
        Some(list) => list,
    }
}

/// The registers of a list stand in their own places too, as the block begins.
fn count_on(known: &mut Known, list: &[u32]) -> bool
    ensures { result ≡ true → (before : Knowing) → Begins list.now before known.old → Begins list.now before known.new }
{
    for register in list {
        if !known.copy(*register, *register) {
            return false;
        }
    }
    true
}

/// A block begins: what lasts stands in its own place, and so do the registers of its list.
pub fn begin(known: &mut Known, list: &[u32]) -> bool
    ensures { result ≡ true → Begins list.now known.old known.new }
{
    known.open();
    count_on(known, list)
}

/// Whether a register stands in its own place.
pub fn is_own(known: &Known, register: u32) -> bool
    ensures { result ≡ true → stands known.now register ≡ Some register }
{
    match known.find(register) {
        None => false,
        Some(place) => place == register,
    }
}

fn are_own(known: &Known, list: &[u32]) -> bool
    ensures { result ≡ true → All (λ r. stands known.now r ≡ Some r) list.now }
{
    for register in list {
        if !is_own(known, *register) {
            return false;
        }
    }
    true
}

fn leads_to(known: &Known, lists: &[Vec<u32>], block: u32) -> bool
    ensures { result ≡ true → All (λ r. stands known.now r ≡ Some r) (slice_index_or (map list_of lists.now) block []) }
{
    are_own(known, list_at(lists, block as usize))
}

/// Whether the registers of the lists of all blocks stand in their own places to which a block leads.
pub fn leads_on(known: &Known, lists: &[Vec<u32>], end: End) -> bool
    ensures { result ≡ true → IsReady (map list_of lists.now) known.now (end_of end) }
{
    match end {
        End::Jump { block } => leads_to(known, lists, block),
        End::Branch { taken, other, .. } => {
            leads_to(known, lists, taken) && leads_to(known, lists, other)
        }
        End::Return { .. } => true,
    }
}
