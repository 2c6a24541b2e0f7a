// Which facts are known where blocks begin. Nothing is proved of it: where one isn't, the program stays as it is.
use super::facts::Fact;
use super::known::Known;
use super::lists::{known_by, list_for};
use low_ir::{Block, End, Function};
use std::alloc::Global;
use wcc_base::Memory;

/// How many blocks lead to a block, two of which are as good as more.
fn lead_to(counts: &mut [u8], block: u32) {
    if let Some(count) = counts.get_mut(block as usize) {
        *count = count.saturating_add(1);
    }
}

fn lead_on(counts: &mut [u8], end: End) {
    match end {
        End::Jump { block } => lead_to(counts, block),
        End::Branch { taken, other, .. } => {
            lead_to(counts, taken);
            lead_to(counts, other);
        }
        End::Return { .. } => {}
    }
}

/// By block, how many blocks lead to it.
fn counts_of(alloc: Global, blocks: &[Block]) -> Result<Vec<u8>, Memory> {
    let mut counts = vec![in alloc; 0u8; blocks.len()]?;
    for block in blocks {
        lead_on(&mut counts, block.end);
    }
    Ok(counts)
}

fn is_one(counts: &[u8], block: u32) -> bool {
    match counts.get(block as usize) {
        None => false,
        Some(count) => *count == 1,
    }
}

/// A later block to which one block alone leads knows what is known there.
fn hand_to(
    alloc: Global,
    lists: &mut [Vec<Fact>],
    counts: &[u8],
    number: usize,
    known: &Known,
    block: u32,
) -> Result<(), Memory> {
    if is_one(counts, block) && block as usize > number {
        let new = known.list(alloc)?;
        if let Some(list) = lists.get_mut(block as usize) {
            *list = new;
        }
    }
    Ok(())
}

fn hand_on(
    alloc: Global,
    lists: &mut [Vec<Fact>],
    counts: &[u8],
    number: usize,
    known: &Known,
    end: End,
) -> Result<(), Memory> {
    match end {
        End::Jump { block } => hand_to(alloc, lists, counts, number, known, block),
        End::Branch { taken, other, .. } => {
            hand_to(alloc, lists, counts, number, known, taken)?;
            hand_to(alloc, lists, counts, number, known, other)
        }
        End::Return { .. } => Ok(()),
    }
}

/// By block, the facts that are known where it begins: those that are known where the one block ends that leads to it.
pub fn beginnings(
    alloc: Global,
    claims: &[Vec<u32>],
    function: &Function,
) -> Result<Vec<Vec<Fact>>, Memory> {
    let counts = counts_of(alloc, &function.blocks)?;
    let mut lists = Vec::new(alloc);
    for _ in 0..function.blocks.len() {
        lists.push(Vec::new(alloc))?;
    }
    for (number, block) in function.blocks.iter().enumerate() {
        let mut known = known_by(alloc, list_for(&lists, number))?;
        for instr in &block.code {
            known.pass(claims, instr);
        }
        hand_on(alloc, &mut lists, &counts, number, &known, block.end)?;
    }
    Ok(lists)
}
