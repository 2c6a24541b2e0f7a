// Facts that are known where blocks begin, by lists of blocks.
ghost use Rattle.std.specs.Prelude.{◌≡◌, true, map, All, IfOk};
ghost use Rattle.low_ir.specs.View.{end_of};
ghost use Rattle.pass_common_subexpressions.specs.Making.{AreFew, AreHanded, AreKnown, AreOf, facts_of, list_for};

use super::facts::Fact;
use super::known::Known;
use low_ir::End;
use std::alloc::Global;
use wcc_base::Memory;

/// The list of a block; the first block has none.
pub fn list_for(lists: &[Vec<Fact>], block: usize) -> &[Fact]
    ensures { result.now ≡ list_for (map facts_of lists.now) block }
{
    if block == 0 {
        return &[];
    }
    match lists.get(block) {
        None => &[],
        Some(list) => list,
    }
}

/// The facts of a list are known too.
fn learn(known: &mut Known, list: &[Fact])
    ensures { AreOf list.now known.old → AreOf list.now known.new }
{
    for fact in list {
        known.add(*fact);
    }
}

/// Facts of a list are known, and nothing else.
pub fn known_by(alloc: Global, list: &[Fact]) -> Result<Known, Memory>
    ensures { IfOk result (AreOf list.now) }
{
    let mut known = Known::new(alloc)?;
    learn(&mut known, list);
    Ok(known)
}

/// Whether the facts of a list are known in its order, as they are where the list was made.
fn knows_all(known: &Known, list: &[Fact]) -> bool
    ensures { result ≡ true → AreKnown known.now list.now }
{
    let mut place = 0;
    for fact in list {
        match known.behind(place, *fact) {
            None => return false,
            Some(next) => place = next,
        }
    }
    true
}

fn leads_to(known: &Known, lists: &[Vec<Fact>], block: u32) -> bool
    ensures { result ≡ true → AreKnown known.now (list_for (map facts_of lists.now) block) }
{
    knows_all(known, list_for(lists, block as usize))
}

/// Whether the facts of the lists of all blocks are known to which a block leads.
pub fn hands(known: &Known, lists: &[Vec<Fact>], end: End) -> bool
    ensures { result ≡ true → AreHanded (map facts_of lists.now) (end_of end) known.now }
{
    match end {
        End::Jump { block } => leads_to(known, lists, block),
        End::Branch { taken, other, .. } => {
            leads_to(known, lists, taken) && leads_to(known, lists, other)
        }
        End::Return { .. } => true,
    }
}

fn are_few(list: &[Fact], registers: u32) -> bool
    ensures { result ≡ true → AreFew registers list.now }
{
    for fact in list {
        if fact.register >= registers {
            return false;
        }
    }
    true
}

/// Whether facts name registers below a number.
pub fn all_few(lists: &[Vec<Fact>], registers: u32) -> bool
    ensures { result ≡ true → All (λ l. AreFew registers (facts_of l)) lists.now }
{
    for list in lists {
        if !are_few(list, registers) {
            return false;
        }
    }
    true
}
