// The machine registers that calls keep.
ghost use Rattle.std.specs.Prelude.{◌≡◌, ◌++◌, ◌∷◌, [], List, drop, length, map, None, IfOk, OnOk};
ghost use Rattle.low_ir.specs.Places.{machine_registers};
ghost use Rattle.low_ir.specs.View.{block_of, instr_of};
ghost use Rattle.register_allocation.specs.Briefs.{names};
ghost use Rattle.register_allocation.specs.Masks.{begun, begun_from, blocks_masks, code_masks, code_swept, held_at, instr_mask, instr_swept, keeps, mask_below, unswept};
ghost use Rattle.register_allocation.specs.Views.{sweep_by, sweep_of};

use super::order::Lasting;
use super::scan::{holder_at, place_at, set_holder};
use low_ir::instruction::Instr;
use low_ir::{Block, Place};
use std::alloc::Global;
use wcc_base::Memory;

/// What a sweep over the code of a function goes by: the registers in the order in which their intervals begin, and their places.
#[derive(Clone, Copy)]
struct Placed<'a> {
    order: &'a [Lasting],
    places: &'a [Place],
}

/// Who has the machine registers at a place of the code.
#[derive(Drop)]
pub struct Sweep {
    /// By machine register, the register whose interval in it began last.
    holders: Vec<Option<Lasting>>,
    /// How many intervals have begun.
    next: usize,
}

fn hold(holders: &mut Vec<Option<Lasting>>, place: Place, new: Lasting)
    ensures { holders.new.items ≡ held_at place new holders.old.items }
{
    match place {
        Place::Register(machine) => set_holder(holders, machine, Some(new)),
        Place::Slot(_) => {}
    }
}

pub fn names(into: Option<u32>, register: u32) -> bool
    ensures { result ≡ names into register }
{
    match into {
        None => false,
        Some(into) => into == register,
    }
}

fn keeps(at: usize, into: Option<u32>, holder: Option<Lasting>) -> bool
    ensures { result ≡ keeps at into holder }
{
    match holder {
        None => false,
        Some(holder) => at <= holder.last && !names(into, holder.register),
    }
}

/// The machine registers that a call keeps: those of registers that live over it, but for that of its value.
#[tactic(auto, unfolding(crate::specs::Masks::mask_below), using(crate::proofs::Masking::mask_next))]
fn mask(holders: &[Option<Lasting>], at: usize, into: Option<u32>) -> u32
    ensures { result ≡ mask_below at into holders.now machine_registers }
{
    let mut mask = 0u32;
    for machine in 0..24u32 {
        if keeps(at, into, holder_at(holders, machine)) {
            mask |= 1u32 << machine;
        }
    }
    mask
}

/// The intervals that begin at a place or before, where the first so many have begun; answers how many have begun then.
fn begin(holders: &mut Vec<Option<Lasting>>, begun: usize, placed: &Placed<'_>, at: usize) -> usize
    ensures { sweep_by placed.now.order.now holders.new.items result ≡ begun_from placed.now.places.now at holders.old.items (drop begun placed.now.order.now) }
{
    let mut next = begun;
    while next < placed.order.len() {
        let each = placed.order[next];
        if each.first > at {
            return next;
        }
        hold(holders, place_at(placed.places, each.register), each);
        next += 1;
    }
    next
}

impl Sweep {
    fn new(alloc: Global) -> Result<Sweep, Memory>
        ensures { IfOk result (λ s. (order : List Lasting) → sweep_of order s ≡ unswept order) }
    {
        let holders = vec![in alloc; None; 24]?;
        Ok(Sweep { holders, next: 0 })
    }

    /// The intervals that begin at a place or before.
    fn begin(&mut self, placed: &Placed<'_>, at: usize)
        ensures { sweep_of placed.now.order.now self.new ≡ begun placed.now.places.now at (sweep_of placed.now.order.now self.old) }
    {
        self.next = begin(&mut self.holders, self.next, placed, at);
    }
}

/// The mask of an instruction, which stands at the place that is as many masks behind the first.
fn put_instr(
    kept: &mut Vec<u32>,
    sweep: &mut Sweep,
    placed: &Placed<'_>,
    instr: &Instr,
) -> Result<(), Memory>
    ensures kept { OnOk result (kept.new.items ≡ kept.old.items ++ instr_mask placed.now.places.now (length kept.old.items) (sweep_of placed.now.order.now sweep.old) (instr_of instr.now) ∷ []) }
    ensures sweep { OnOk result (sweep_of placed.now.order.now sweep.new ≡ instr_swept placed.now.places.now (length kept.old.items) (sweep_of placed.now.order.now sweep.old) (instr_of instr.now)) }
{
    match instr {
        Instr::Call { into, .. } => {
            let at = kept.len();
            sweep.begin(placed, at);
            kept.push(mask(&sweep.holders, at, *into))?;
            Ok(())
        }
        Instr::Set { .. } => Ok(kept.push(0)?),
        Instr::Operate { .. } => Ok(kept.push(0)?),
        Instr::Point { .. } => Ok(kept.push(0)?),
        Instr::Load { .. } => Ok(kept.push(0)?),
        Instr::Store { .. } => Ok(kept.push(0)?),
        Instr::Put { .. } => Ok(kept.push(0)?),
        Instr::Get { .. } => Ok(kept.push(0)?),
    }
}

fn put_code(
    kept: &mut Vec<u32>,
    sweep: &mut Sweep,
    placed: &Placed<'_>,
    code: &[Instr],
) -> Result<(), Memory>
    ensures kept { OnOk result (kept.new.items ≡ kept.old.items ++ code_masks placed.now.places.now (length kept.old.items) (sweep_of placed.now.order.now sweep.old) (map instr_of code.now)) }
    ensures sweep { OnOk result (sweep_of placed.now.order.now sweep.new ≡ code_swept placed.now.places.now (length kept.old.items) (sweep_of placed.now.order.now sweep.old) (map instr_of code.now)) }
{
    for instr in code {
        put_instr(kept, sweep, placed, instr)?;
    }
    kept.push(0)?;
    Ok(())
}

fn put_blocks(
    kept: &mut Vec<u32>,
    sweep: &mut Sweep,
    placed: &Placed<'_>,
    blocks: &[Block],
) -> Result<(), Memory>
    ensures { OnOk result (kept.new.items ≡ kept.old.items ++ blocks_masks placed.now.places.now (length kept.old.items) (sweep_of placed.now.order.now sweep.old) (map block_of blocks.now)) }
{
    for block in blocks {
        put_code(kept, sweep, placed, &block.code)?;
    }
    Ok(())
}

/// By place of a function's code, the machine registers that the call there keeps.
pub fn masks(
    alloc: Global,
    order: &[Lasting],
    places: &[Place],
    blocks: &[Block],
) -> Result<Vec<u32>, Memory>
    ensures { IfOk result (λ kept. kept.items ≡ blocks_masks places.now 0 (unswept order.now) (map block_of blocks.now)) }
{
    let mut kept = Vec::new(alloc);
    let mut sweep = Sweep::new(alloc)?;
    let placed = Placed { order, places };
    put_blocks(&mut kept, &mut sweep, &placed, blocks)?;
    Ok(kept)
}
