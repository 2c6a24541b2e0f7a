// The loops of a function, the inner ones first.
use super::choosing::{Market, chosen_in, cost_of, select};
use super::counts::{Counts, counts_of};
use super::rewriting::{Chosen, enter_all, registers_for, serve, step};
use super::trial::Trial;
use low_ir::{Function, Loop};
use pass_induction_variables::finding::{Candidate, Found, Looking, find};
use pass_induction_variables::flow::{Flow, flow_of};
use pass_induction_variables::lags::{Lags, lags_of};
use pass_induction_variables::lives::{Lives, lives_of};
use pass_induction_variables::parts::Parts;
use pass_strength_sketches::map::Map;
use pass_strength_sketches::sketch::{Pointer, Sketch, lines_of, sketch_of};
use pass_strength_sketches::tables::{flag_at, number_at};
use pass_strength_sketches::words::Words;
use std::alloc::Global;
use wcc_base::Memory;

/// How many registers there are for values.
const REGISTERS: u32 = 24;

/// How many loops within one another are gone through.
const HEIGHTS: u32 = 6;

/// What is known of a function all the time.
#[derive(Clone, Copy)]
pub struct Known<'a> {
    pub function: &'a Function,
    pub map: &'a Map,
    pub words: &'a Words,
    /// The number of the claim behind the last one.
    pub claims: u32,
}

/// What is known of it as it stands.
#[derive(Drop)]
struct Standing {
    lives: Lives,
    counts: Counts,
}

/// What goes from loop to loop.
#[derive(Drop)]
pub struct Work<'a> {
    pub sketch: Sketch,
    /// The arrays that have claims of their own.
    alone: &'a mut Vec<u32>,
    parts: Parts,
    trial: Trial,
}

impl<'a> Work<'a> {
    pub fn new(
        alloc: Global,
        known: &Known<'_>,
        spare: &[bool],
        alone: &'a mut Vec<u32>,
    ) -> Result<Work<'a>, Memory> {
        let registers = known.function.registers;
        Ok(Work {
            sketch: sketch_of(alloc, known.function, spare)?,
            alone,
            parts: Parts::new(alloc, registers)?,
            trial: Trial::new(alloc, registers)?,
        })
    }
}

/// The claim that lists an array alone.
fn claim_of(first: u32, alone: &mut Vec<u32>, object: u32) -> Result<Option<u32>, Memory> {
    let mut claim = first;
    for other in alone.iter() {
        if *other == object {
            return Ok(Some(claim));
        }
        let Some(next) = claim.checked_add(1) else {
            return Ok(None);
        };
        claim = next;
    }
    alone.push(object)?;
    Ok(Some(claim))
}

/// How many registers are left in a loop.
fn room_in(lives: &Lives, each: Loop) -> u32 {
    let mut most = 0u32;
    for block in each.header..=each.latch {
        most = most.max(number_at(&lives.most, block as usize));
    }
    REGISTERS.saturating_sub(most)
}

/// Where the candidates of a loop would be stepped, and what that costs; one of which that isn't found isn't chosen.
fn place_all(
    alloc: Global,
    map: &Map,
    flow: &Flow,
    found: &mut Found,
) -> Result<Vec<Option<Lags>>, Memory> {
    let mut all = Vec::new(alloc);
    for at in 0..found.candidates.len() {
        let lags = match found.candidates.get(at) {
            None => None,
            Some(candidate) => lags_of(alloc, map, found, candidate.form, flow.first)?,
        };
        if let Some(candidate) = found.candidates.get_mut(at) {
            match &lags {
                None => candidate.chosen = false,
                Some(lags) => candidate.cost = cost_of(map, flow, candidate.form, lags),
            }
        }
        all.push(lags)?;
    }
    Ok(all)
}

/// The accesses of a candidate go through a pointer.
fn take(
    alloc: Global,
    known: &Known<'_>,
    sketch: &mut Sketch,
    flow: &Flow,
    chosen: Chosen,
    lags: &Lags,
) -> Result<bool, Memory> {
    step(sketch, flow, chosen, lags)?;
    let mut by_block = Vec::new(alloc);
    for lag in &lags.lags {
        by_block.push(*lag)?;
    }
    sketch.pointers.push(Pointer {
        register: chosen.register,
        object: chosen.candidate.object,
        form: chosen.candidate.form,
        header: flow.first,
        lags: by_block,
    })?;
    enter_all(sketch, known.words, known.map, flow, chosen)
}

/// A chosen candidate with a register and a claim, where there are registers enough.
fn chosen_of(
    known: &Known<'_>,
    work: &mut Work<'_>,
    flow: &Flow,
    candidate: Candidate,
) -> Result<Option<Chosen>, Memory> {
    if !candidate.chosen {
        return Ok(None);
    }
    let entries = known.map.sources_at(flow.first).len();
    if work.sketch.spare.len() < registers_for(candidate.form, entries) {
        return Ok(None);
    }
    let Some(claim) = claim_of(known.claims, work.alone, candidate.object)? else {
        return Ok(None);
    };
    match work.sketch.fresh() {
        None => Ok(None),
        Some(register) => Ok(Some(Chosen {
            candidate,
            register,
            claim,
        })),
    }
}

/// What a loop has come to.
#[derive(Drop)]
struct Chance {
    flow: Flow,
    found: Found,
    lags: Vec<Option<Lags>>,
}

fn serve_all(sketch: &mut Sketch, chance: &Chance, chosen: Chosen, lags: &Lags, number: usize) {
    for each in &chance.found.uses {
        if each.candidate == number {
            serve(sketch, &chance.flow, chosen, lags, *each);
        }
    }
}

fn rewrite(
    alloc: Global,
    known: &Known<'_>,
    work: &mut Work<'_>,
    chance: &Chance,
) -> Result<bool, Memory> {
    for (number, candidate) in chance.found.candidates.iter().enumerate() {
        if let Some(chosen) = chosen_of(known, work, &chance.flow, *candidate)? {
            if let Some(Some(lags)) = chance.lags.get(number) {
                serve_all(&mut work.sketch, chance, chosen, lags, number);
                if !take(alloc, known, &mut work.sketch, &chance.flow, chosen, lags)? {
                    return Ok(false);
                }
            }
        }
    }
    Ok(true)
}

/// The accesses of a loop that pointers might serve.
fn look(
    alloc: Global,
    known: &Known<'_>,
    work: &mut Work<'_>,
    flow: &Flow,
    stepping: bool,
) -> Result<Found, Memory> {
    let looking = Looking {
        drafts: &work.sketch.drafts,
        words: known.words,
        flow,
        stepping,
    };
    find(alloc, &looking, &mut work.parts)
}

/// What the registers are in a loop.
fn note_all(known: &Known<'_>, work: &mut Work<'_>, each: Loop) {
    for block in each.header..=each.latch {
        for line in lines_of(&work.sketch.drafts, block as usize) {
            work.parts.note(known.words, line.act);
        }
    }
}

/// What may come of a loop.
fn chance_of(
    alloc: Global,
    known: &Known<'_>,
    work: &mut Work<'_>,
    lives: &Lives,
    each: Loop,
    stepping: bool,
) -> Result<Option<Chance>, Memory> {
    let drafts = &work.sketch.drafts;
    let Some(flow) = flow_of(alloc, drafts, known.words, &mut work.parts, lives, each)? else {
        return Ok(None);
    };
    let mut found = look(alloc, known, work, &flow, stepping)?;
    let lags = place_all(alloc, known.map, &flow, &mut found)?;
    Ok(Some(Chance { flow, found, lags }))
}

/// What pays of it, and is written down.
fn choose(
    alloc: Global,
    known: &Known<'_>,
    work: &mut Work<'_>,
    standing: &mut Standing,
    chance: &mut Chance,
    each: Loop,
) -> Result<bool, Memory> {
    let room = room_in(&standing.lives, each);
    let market = Market {
        drafts: &work.sketch.drafts,
        map: known.map,
    };
    let counts = (&mut standing.counts, &mut work.trial);
    select(alloc, &market, &mut chance.found, counts, room)?;
    if chosen_in(&chance.found) == 0 {
        Ok(true)
    } else {
        rewrite(alloc, known, work, chance)
    }
}

fn step_loop(
    alloc: Global,
    known: &Known<'_>,
    work: &mut Work<'_>,
    standing: &mut Standing,
    each: Loop,
    stepping: bool,
) -> Result<bool, Memory> {
    note_all(known, work, each);
    let chance = chance_of(alloc, known, work, &standing.lives, each, stepping)?;
    work.parts.leave();
    match chance {
        None => Ok(true),
        Some(chance) => {
            let mut chance = chance;
            choose(alloc, known, work, standing, &mut chance, each)
        }
    }
}

/// What is known of a function as it stands; nothing, where it isn't found in time.
fn standing_of(
    alloc: Global,
    known: &Known<'_>,
    sketch: &mut Sketch,
) -> Result<Option<Standing>, Memory> {
    let lives = lives_of(alloc, known.function, sketch)?;
    if !lives.found {
        return Ok(None);
    }
    let counts = counts_of(alloc, known.function, &sketch.drafts)?;
    Ok(Some(Standing { lives, counts }))
}

fn is_next(map: &Map, number: usize, each: Loop, height: u32) -> bool {
    flag_at(&map.reached, each.header as usize) && number_at(&map.heights, number) == height
}

fn step_loops(
    alloc: Global,
    known: &Known<'_>,
    work: &mut Work<'_>,
    standing: &mut Standing,
    height: u32,
    stepping: bool,
) -> Result<bool, Memory> {
    for (number, each) in known.function.loops.iter().enumerate() {
        if is_next(known.map, number, *each, height) {
            if !step_loop(alloc, known, work, standing, *each, stepping)? {
                return Ok(false);
            }
        }
    }
    Ok(true)
}

/// The loops of one height.
fn step_height(
    alloc: Global,
    known: &Known<'_>,
    work: &mut Work<'_>,
    height: u32,
    stepping: bool,
) -> Result<bool, Memory> {
    work.sketch.tidy(alloc)?;
    match standing_of(alloc, known, &mut work.sketch)? {
        None => Ok(true),
        Some(standing) => {
            let mut standing = standing;
            step_loops(alloc, known, work, &mut standing, height, stepping)
        }
    }
}

fn has_height(heights: &[u32], height: u32) -> bool {
    for other in heights {
        if *other == height {
            return true;
        }
    }
    false
}

/// All loops of a function, and says whether there were registers enough.
pub fn step_all(alloc: Global, known: &Known<'_>, work: &mut Work<'_>) -> Result<bool, Memory> {
    for stepping in [true, false] {
        for height in 1..=HEIGHTS {
            if has_height(&known.map.heights, height) {
                if !step_height(alloc, known, work, height, stepping)? {
                    return Ok(false);
                }
            }
        }
    }
    work.sketch.tidy(alloc)?;
    Ok(true)
}
