// A scan over the registers in the order in which their intervals begin.
ghost use Rattle.std.specs.Prelude.{◌≡◌, ◌<◌, ◌≤◌, ◌+◌, ◌^◌, ℕ, true, false, None, IfNone, IfOk, IfSome, slice_index_or, slice_set};
ghost use Rattle.low_ir.specs.declared.places.Place.TheVariants as places;
ghost use Rattle.low_ir.specs.Code.{Function, Note};
ghost use Rattle.low_ir.specs.Places.{machine_registers};
ghost use Rattle.low_ir.specs.View.{function_of};
ghost use Rattle.register_allocation.specs.Briefs.{IsBrief, blocks_turns};
ghost use Rattle.register_allocation.specs.Orders.{AreInOrder};
ghost use Rattle.register_allocation.specs.Scans.{AllTaken, IsChoice, Scanned, evicted, followed, given, is_free, is_over, place_at, spilled, unplaced};

use super::briefs::{Turn, is_brief, turns};
use super::choice::Choice;
use super::order::Lasting;
use super::tastes::{Tastes, has};
use low_ir::{Function as Code, Place, Placing};
use std::alloc::Global;
use std::marker::Model;
use wcc_base::Memory;

/// How many machine registers can hold values over calls.
const MACHINE: u8 = 24;
/// One more, which can't.
const RESULT: u8 = 24;

/// The places so far. A register without an interval stands in no one's way, and may have any place.
#[derive(Drop)]
pub struct Scan {
    /// By register.
    places: Vec<Place>,
    /// By machine register, the register that got it last.
    holders: Vec<Option<Lasting>>,
    slots: u32,
}

impl Model for Scan {
    ghost use Rattle.register_allocation.specs.Scans.{Scan as Scanning};

    ghost Value = { Scanning };

    ghost view = { λ s. record { places = s.places.items; holders = s.holders.items; slots = s.slots } };
}

/// The place of a register.
pub fn place_at(places: &[Place], register: u32) -> Place
    ensures { result ≡ place_at places.now register }
{
    match places.get(register as usize) {
        None => Place::Slot(register),
        Some(place) => *place,
    }
}

/// The register that has a machine register.
pub fn holder_at(holders: &[Option<Lasting>], machine: u32) -> Option<Lasting>
    ensures { result ≡ slice_index_or holders.now machine None }
{
    match holders.get(machine as usize) {
        None => None,
        Some(holder) => *holder,
    }
}

fn set_place(places: &mut Vec<Place>, register: u32, new: Place)
    ensures { places.new.items ≡ slice_set places.old.items register new }
{
    if let Some(place) = places.get_mut(register as usize) {
        *place = new;
    }
}

/// Another register has a machine register, or none.
pub fn set_holder(holders: &mut Vec<Option<Lasting>>, machine: u8, new: Option<Lasting>)
    ensures { holders.new.items ≡ slice_set holders.old.items machine new }
{
    if let Some(holder) = holders.get_mut(usize::from(machine)) {
        *holder = new;
    }
}

fn is_over(holder: Option<Lasting>, at: usize) -> bool
    ensures { result ≡ is_over at holder }
{
    match holder {
        None => true,
        Some(holder) => holder.last < at,
    }
}

impl Scan {
    fn new(alloc: Global, registers: u32) -> Result<Scan, Memory>
        ensures { IfOk result (λ s. s ≡ unplaced registers) }
    {
        let places = vec![in alloc; Place::Register(0); registers as usize]?;
        let holders = vec![in alloc; None; usize::from(RESULT) + 1]?;
        Ok(Scan {
            places,
            holders,
            slots: 0,
        })
    }

    fn is_free(&self, at: usize, machine: u8) -> bool
        ensures { result ≡ is_free self.now at machine }
    {
        is_over(holder_at(&self.holders, u32::from(machine)), at)
    }

    /// The first machine register that is free for what begins at a place.
    fn first_free(&self, at: usize) -> Option<u8>
        ensures found { IfSome result (λ q. (q < machine_registers) × (is_free self.now at q ≡ true)) }
        ensures none { IfNone result (AllTaken self.now at) }
    {
        for machine in 0..MACHINE {
            if self.is_free(at, machine) {
                return Some(machine);
            }
        }
        None
    }

    /// The first of a set.
    fn free_among(&self, at: usize, set: u32) -> Option<u8>
        ensures { IfSome result (λ q. (q < machine_registers) × (is_free self.now at q ≡ true)) }
    {
        for machine in 0..MACHINE {
            if has(set, machine) {
                if self.is_free(at, machine) {
                    return Some(machine);
                }
            }
        }
        None
    }

    /// The first of the first of these sets that has one.
    fn free_in(&self, at: usize, sets: [u32; 4]) -> Option<u8>
        ensures { IfSome result (λ q. (q < machine_registers) × (is_free self.now at q ≡ true)) }
    {
        for set in sets {
            if let Some(machine) = self.free_among(at, set) {
                return Some(machine);
            }
        }
        None
    }

    fn free_for(&self, new: Lasting, tastes: &Tastes) -> Option<u8>
        ensures found { IfSome result (λ q. (q < machine_registers) × (is_free self.now new.first q ≡ true)) }
        ensures none { IfNone result (AllTaken self.now new.first) }
    {
        let sets = tastes.sets(new, &self.places);
        match self.free_in(new.first, sets) {
            Some(machine) => Some(machine),
            None => self.first_free(new.first),
        }
    }

    /// The machine register whose register is worth least, if it is worth less than a new one.
    fn cheapest(&self, new: Lasting, tastes: &Tastes) -> Option<u8>
        ensures { IfSome result (λ q. q < machine_registers) }
    {
        let mut least = tastes.worth(new);
        let mut cheapest = None;
        for machine in 0..MACHINE {
            if let Some(holder) = holder_at(&self.holders, u32::from(machine)) {
                let worth = tastes.worth(holder);
                if worth < least {
                    least = worth;
                    cheapest = Some(machine);
                }
            }
        }
        cheapest
    }

    fn instead(&self, new: Lasting, tastes: &Tastes) -> Choice
        requires { AllTaken self.now new.first }
        ensures { (code : Function ℕ Note) → IsChoice code self.now new result }
    {
        match self.cheapest(new, tastes) {
            Some(machine) => Choice::Instead(machine),
            None => Choice::InSlot,
        }
    }

    fn choose(&self, new: Lasting, tastes: &Tastes, brief: bool) -> Choice
        ensures { (code : Function ℕ Note) → (brief ≡ true → IsBrief code new) → IsChoice code self.now new result }
    {
        if brief {
            if self.is_free(new.first, RESULT) {
                return Choice::Free(RESULT);
            }
        }
        match self.free_for(new, tastes) {
            Some(machine) => Choice::Free(machine),
            None => self.instead(new, tastes),
        }
    }

    fn give(&mut self, machine: u8, new: Lasting)
        ensures { self.new ≡ given machine new self.old }
    {
        set_place(&mut self.places, new.register, Place::Register(machine));
        set_holder(&mut self.holders, machine, Some(new));
    }

    fn spill(&mut self, register: u32)
        requires { self.old.slots + 1 < 2 ^ 32 }
        ensures { self.new ≡ spilled register self.old }
    {
        set_place(&mut self.places, register, Place::Slot(self.slots));
        self.slots += 1;
    }

    /// The register that has a machine register gets a slot.
    fn evict(&mut self, machine: u8)
        requires { self.old.slots + 1 < 2 ^ 32 }
        ensures { self.new ≡ evicted machine self.old }
    {
        match holder_at(&self.holders, u32::from(machine)) {
            None => {}
            Some(holder) => {
                self.spill(holder.register);
                set_holder(&mut self.holders, machine, None);
            }
        }
    }

    fn follow(&mut self, choice: Choice, new: Lasting)
        requires { self.old.slots + 1 < 2 ^ 32 }
        ensures { self.new ≡ followed choice new self.old }
    {
        match choice {
            Choice::Free(machine) => self.give(machine, new),
            Choice::Instead(machine) => {
                self.evict(machine);
                self.give(machine, new);
            }
            Choice::InSlot => self.spill(new.register),
        }
    }

    pub fn places(&self) -> &[Place]
        ensures { result.now ≡ self.now.places }
    {
        self.places.as_slice()
    }

    /// The places, with the machine registers that calls keep.
    pub fn into_placing(self, kept: Vec<u32>) -> Placing
        ensures places { result.places.items ≡ self.places }
        ensures kept { result.kept ≡ kept }
        ensures slots { result.slots ≡ self.slots }
    {
        let Scan {
            places,
            holders,
            slots,
        } = self;
        drop(holders);
        Placing {
            places,
            kept,
            slots,
        }
    }
}

/// Whether a register can have the result register, and that is best.
fn is_liked(function: &Code, turns: &[Turn], tastes: &Tastes, each: Lasting) -> bool
    requires { turns.now ≡ blocks_turns (function_of function.now).blocks }
    ensures { result ≡ true → IsBrief (function_of function.now) each }
{
    if !tastes.likes_result(each.register) {
        return false;
    }
    is_brief(function, turns, each)
}

/// Places for the registers of a function, in the order in which their intervals begin.
pub fn scan_all(
    alloc: Global,
    order: &[Lasting],
    function: &Code,
    tastes: &Tastes,
) -> Result<Scan, Memory>
    requires { AreInOrder (function_of function.now).size order.now }
    ensures scanned { IfOk result (Scanned (function_of function.now) (function_of function.now).size order.now order.now) }
    ensures slots { IfOk result (λ s. s.slots ≤ (function_of function.now).size) }
{
    let turns = turns(alloc, function)?;
    let mut scan = Scan::new(alloc, function.registers)?;
    for each in order {
        let brief = is_liked(function, turns.as_slice(), tastes, *each);
        let choice = scan.choose(*each, tastes, brief);
        scan.follow(choice, *each);
    }
    Ok(scan)
}
