// Places, as lines.
use crate::lives::lives_of;
use low_ir::{Function, Place, Placing};
use register_allocation::placings;
use std::alloc::Global;
use wcc_base::Memory;

fn place_shown(alloc: Global, place: Place) -> Result<String, Memory> {
    match place {
        Place::Register(machine) => Ok(format!(in alloc; " q{machine}")?),
        Place::Slot(slot) => Ok(format!(in alloc; " s{slot}")?),
    }
}

fn put_places(alloc: Global, answer: &mut String, places: &[Place]) -> Result<(), Memory> {
    for place in places {
        let word = place_shown(alloc, *place)?;
        answer.push_str(word.as_str())?;
    }
    Ok(())
}

fn put_machine(alloc: Global, answer: &mut String, mask: u32, machine: u32) -> Result<(), Memory> {
    if mask.wrapping_shr(machine) % 2 == 1 {
        let word = format!(in alloc; " q{machine}")?;
        answer.push_str(word.as_str())?;
    }
    Ok(())
}

/// What the call at a place keeps, if it keeps something.
fn put_kept(alloc: Global, answer: &mut String, at: usize, mask: u32) -> Result<(), Memory> {
    if mask == 0 {
        return Ok(());
    }
    let place = format!(in alloc; "; {at}")?;
    answer.push_str(place.as_str())?;
    for machine in 0..24u32 {
        put_machine(alloc, answer, mask, machine)?;
    }
    Ok(())
}

fn put_placing(alloc: Global, answer: &mut String, placing: &Placing) -> Result<(), Memory> {
    let slots = format!(in alloc; "{}", placing.slots)?;
    answer.push_str(slots.as_str())?;
    put_places(alloc, answer, &placing.places)?;
    for (at, mask) in placing.kept.iter().enumerate() {
        put_kept(alloc, answer, at, *mask)?;
    }
    answer.push('\n')?;
    Ok(())
}

/// A line for each function.
pub fn answer_to(alloc: Global, functions: &[Function]) -> Result<String, Memory> {
    let live = lives_of(alloc, functions)?;
    let placings = placings(alloc, functions, &live)?;
    let mut answer = String::new(alloc);
    for placing in &placings {
        put_placing(alloc, &mut answer, placing)?;
    }
    Ok(answer)
}
