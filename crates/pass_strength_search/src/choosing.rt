// Which pointers pay.
use super::counts::{Counts, Place, others_read_by};
use super::trial::Trial;
use pass_dataflow_facts::Form;
use pass_induction_variables::finding::{Candidate, Found};
use pass_induction_variables::flow::Flow;
use pass_induction_variables::lags::Lags;
use pass_strength_sketches::forms::power_of;
use pass_strength_sketches::map::Map;
use pass_strength_sketches::sketch::{Draft, lines_of};
use pass_strength_sketches::tables::{flag_at, number_at};
use std::alloc::Global;
use wcc_base::Memory;

/// What it costs to save a pointer round a call.
const CALL: i64 = 3;

/// How many registers are looked at for one choice.
const DEAD: usize = 100_000;

/// How often candidates are left out at most.
const ROUNDS: u32 = 12;

/// How many instructions set a pointer.
fn entry_of(form: Form) -> i64 {
    let mut entry = 1i64;
    for term in form.terms {
        if term.factor != 0 {
            let own = if term.factor == 1 {
                1
            } else if power_of(term.factor).is_some() {
                2
            } else {
                3
            };
            entry = entry.wrapping_add(own);
        }
    }
    entry
}

fn entries_cost(map: &Map, flow: &Flow, form: Form) -> i64 {
    let mut cost = 0i64;
    for source in map.sources_at(flow.first) {
        let block = *source as usize;
        if block < flow.first || block >= flow.first.saturating_add(flow.blocks()) {
            cost = cost.saturating_add(entry_of(form).wrapping_mul(map.times_at(block)));
        }
    }
    cost
}

/// What entries, steps and calls cost.
pub fn cost_of(map: &Map, flow: &Flow, form: Form, lags: &Lags) -> i64 {
    let mut cost = entries_cost(map, flow, form);
    for row in 0..flow.blocks() {
        let block = flow.first.wrapping_add(row);
        let calls = CALL.wrapping_mul(i64::from(number_at(&map.calls, block)));
        let step = if flag_at(&lags.flushes, row) { 1 } else { 0 };
        let each = map.times_at(block).wrapping_mul(calls.wrapping_add(step));
        cost = cost.saturating_add(each);
    }
    cost
}

/// What is chosen from.
#[derive(Clone, Copy)]
pub struct Market<'a> {
    pub drafts: &'a [Draft],
    pub map: &'a Map,
}

fn is_chosen(candidates: &[Candidate], at: usize) -> bool {
    match candidates.get(at) {
        None => false,
        Some(candidate) => candidate.chosen,
    }
}

/// An instruction is left out: what it is worth; it reads nothing any more.
fn leave_out(market: &Market<'_>, reads: &mut [u32], trial: &mut Trial, place: Place) -> i64 {
    if let Some(line) = lines_of(market.drafts, place.block).get(place.at) {
        for register in others_read_by(*line) {
            if let Some(register) = register {
                trial.read_less(reads, register);
            }
        }
    }
    market.map.times_at(place.block)
}

/// What the instructions are worth that write a register which nothing reads.
fn leave_all_out(
    market: &Market<'_>,
    counts: &mut Counts,
    trial: &mut Trial,
    register: u32,
) -> i64 {
    let mut gain = 0i64;
    if let Some(places) = counts.writes.get(register as usize) {
        for place in places {
            gain = gain.saturating_add(leave_out(market, &mut counts.reads, trial, *place));
        }
    }
    gain
}

/// What the instructions are worth that die where some registers are read less.
fn worth_of_dead(market: &Market<'_>, counts: &mut Counts, trial: &mut Trial) -> i64 {
    let mut gain = 0i64;
    for _ in 0..DEAD {
        match trial.next_unread() {
            None => return gain,
            Some(register) => {
                gain = gain.saturating_add(leave_all_out(market, counts, trial, register));
            }
        }
    }
    gain
}

/// What the chosen candidates are worth.
fn gain_of(market: &Market<'_>, found: &Found, counts: &mut Counts, trial: &mut Trial) -> i64 {
    let mut gain = 0i64;
    for each in &found.uses {
        if is_chosen(&found.candidates, each.candidate) {
            gain = gain.saturating_add(market.map.times_at(each.block));
            trial.read_less(&mut counts.reads, each.offset);
        }
    }
    gain = gain.saturating_add(worth_of_dead(market, counts, trial));
    trial.restore(&mut counts.reads);
    for candidate in &found.candidates {
        if candidate.chosen {
            gain = gain.saturating_sub(candidate.cost);
        }
    }
    gain
}

fn set_chosen(found: &mut Found, at: usize, new: bool) {
    if let Some(candidate) = found.candidates.get_mut(at) {
        candidate.chosen = new;
    }
}

/// How many are chosen.
pub fn chosen_in(found: &Found) -> u32 {
    let mut all = 0u32;
    for candidate in &found.candidates {
        if candidate.chosen {
            all = all.saturating_add(1);
        }
    }
    all
}

/// By candidate that is chosen, what the rest is worth without it.
fn gains_without(
    alloc: Global,
    market: &Market<'_>,
    found: &mut Found,
    counts: &mut Counts,
    trial: &mut Trial,
) -> Result<Vec<(i64, usize)>, Memory> {
    let mut gains = Vec::new(alloc);
    for at in 0..found.candidates.len() {
        if is_chosen(&found.candidates, at) {
            set_chosen(found, at, false);
            let gain = gain_of(market, found, counts, trial);
            gains.push((gain, at))?;
            set_chosen(found, at, true);
        }
    }
    Ok(gains)
}

/// Leaves out those that don't pay, and says whether there were any. What a candidate is worth doesn't grow as others are left out.
fn leave_out_poor(found: &mut Found, gains: &[(i64, usize)], now: i64) -> bool {
    let mut changed = false;
    for pair in gains {
        if pair.0 >= now {
            set_chosen(found, pair.1, false);
            changed = true;
        }
    }
    changed
}

/// Leaves out so many, those without which the rest is worth most.
fn leave_out_worst(
    found: &mut Found,
    gains: Vec<(i64, usize)>,
    number: usize,
) -> Result<(), Memory> {
    let mut gains = gains;
    gains.sort_by_key(|pair| pair.0)?;
    let count = gains.len();
    for back in 0..number.min(count) {
        if let Some(pair) = gains.get(count.wrapping_sub(back).wrapping_sub(1)) {
            set_chosen(found, pair.1, false);
        }
    }
    Ok(())
}

/// Leaves out what doesn't pay, and then that for which there is no room.
pub fn select(
    alloc: Global,
    market: &Market<'_>,
    found: &mut Found,
    (counts, trial): (&mut Counts, &mut Trial),
    room: u32,
) -> Result<(), Memory> {
    for _ in 0..ROUNDS {
        let now = gain_of(market, found, counts, trial);
        let gains = gains_without(alloc, market, found, counts, trial)?;
        if !leave_out_poor(found, &gains, now) {
            let number = chosen_in(found).saturating_sub(room);
            if number == 0 {
                return Ok(());
            }
            leave_out_worst(found, gains, number as usize)?;
        }
    }
    for at in 0..found.candidates.len() {
        set_chosen(found, at, false);
    }
    Ok(())
}
