// Accesses through the chosen pointers.
use low_ir::{Address, Base, Operand};
use pass_dataflow_facts::{Form, Term};
use pass_induction_variables::finding::{Candidate, Use};
use pass_induction_variables::flow::Flow;
use pass_induction_variables::lags::Lags;
use pass_strength_sketches::acts::Act;
use pass_strength_sketches::forms::power_of;
use pass_strength_sketches::map::Map;
use pass_strength_sketches::sketch::{Sketch, lines_of, through, writes};
use pass_strength_sketches::tables::number_at;
use pass_strength_sketches::words::Words;
use rv_core::Alu;
use wcc_base::Memory;

/// How far back a block is read for what it sets a register to.
const BACK: usize = 4096;

/// A candidate that becomes a pointer.
#[derive(Clone, Copy)]
pub struct Chosen {
    pub candidate: Candidate,
    pub register: u32,
    /// The claim that lists its array alone.
    pub claim: u32,
}

/// The word that a block sets a register to, where it does so last.
fn word_behind(words: &Words, sketch: &Sketch, block: usize, register: u32) -> Option<u32> {
    if let Some(word) = words.constant(register) {
        return Some(word);
    }
    let lines = lines_of(&sketch.drafts, block);
    let count = lines.len();
    for back in 0..count.min(BACK) {
        if let Some(line) = lines.get(count.wrapping_sub(back).wrapping_sub(1)) {
            if writes(line.act, register) {
                return match line.act {
                    Act::Set { value, .. } => words.word_of(value),
                    _ => None,
                };
            }
        }
    }
    None
}

/// How many registers a pointer takes at most, with those for multiples and sums by which it is set.
pub fn registers_for(form: Form, entries: usize) -> usize {
    let mut terms = 0usize;
    let mut multiples = 0usize;
    for term in form.terms {
        if term.factor != 0 {
            terms = terms.wrapping_add(1);
        }
        if term.factor > 1 {
            multiples = multiples.wrapping_add(1);
        }
    }
    let each = multiples.wrapping_add(terms.saturating_sub(1));
    each.saturating_mul(entries).saturating_add(1)
}

/// A register that holds so many times another one.
fn multiple(sketch: &mut Sketch, block: usize, term: Term) -> Result<Option<u32>, Memory> {
    let left = Operand::Register(term.register);
    if term.factor == 1 {
        return Ok(Some(term.register));
    }
    match power_of(term.factor) {
        Some(power) => sketch.operate(block, Alu::ShiftLeft, left, Operand::Constant(power)),
        None => sketch.operate(block, Alu::Product, left, Operand::Constant(term.factor)),
    }
}

/// A register that holds the sum of two.
fn added(sketch: &mut Sketch, block: usize, left: u32, right: u32) -> Result<Option<u32>, Memory> {
    let left = Operand::Register(left);
    sketch.operate(block, Alu::Sum, left, Operand::Register(right))
}

/// What is added up as a pointer is set.
#[derive(Clone, Copy)]
struct Begun {
    offset: Option<u32>,
    displacement: u32,
}

fn with_multiple(
    sketch: &mut Sketch,
    block: usize,
    begun: Begun,
    term: Term,
) -> Result<Option<Begun>, Memory> {
    let Some(multiple) = multiple(sketch, block, term)? else {
        return Ok(None);
    };
    let offset = match begun.offset {
        None => Some(multiple),
        Some(other) => added(sketch, block, other, multiple)?,
    };
    match offset {
        None => Ok(None),
        Some(offset) => Ok(Some(Begun {
            offset: Some(offset),
            displacement: begun.displacement,
        })),
    }
}

fn with_term(
    sketch: &mut Sketch,
    words: &Words,
    block: usize,
    begun: Begun,
    term: Term,
) -> Result<Option<Begun>, Memory> {
    if term.factor == 0 {
        return Ok(Some(begun));
    }
    match word_behind(words, sketch, block, term.register) {
        None => with_multiple(sketch, block, begun, term),
        Some(word) => Ok(Some(Begun {
            offset: begun.offset,
            displacement: begun
                .displacement
                .wrapping_add(word.wrapping_mul(term.factor)),
        })),
    }
}

fn add_entered(sketch: &mut Sketch, block: usize, form: Form) -> Result<(), Memory> {
    if let Some(draft) = sketch.drafts.get_mut(block) {
        for term in form.terms {
            if term.factor != 0 {
                draft.entered.push(term.register)?;
            }
        }
    }
    Ok(())
}

/// Sets a pointer at the end of a block that leads to its loop, and says whether there were registers enough.
pub fn enter(
    sketch: &mut Sketch,
    words: &Words,
    block: usize,
    chosen: Chosen,
) -> Result<bool, Memory> {
    let form = chosen.candidate.form;
    let mut begun = Begun {
        offset: None,
        displacement: form.constant,
    };
    for term in form.terms {
        match with_term(sketch, words, block, begun, term)? {
            None => return Ok(false),
            Some(next) => begun = next,
        }
    }
    sketch.push(
        block,
        Act::Point {
            into: chosen.register,
            address: Address {
                base: Base::Object(chosen.candidate.object),
                offset: begun.offset,
                displacement: begun.displacement,
            },
        },
    )?;
    add_entered(sketch, block, form)?;
    Ok(true)
}

/// Sets a pointer wherever its loop is entered.
pub fn enter_all(
    sketch: &mut Sketch,
    words: &Words,
    map: &Map,
    flow: &Flow,
    chosen: Chosen,
) -> Result<bool, Memory> {
    for source in map.sources_at(flow.first) {
        let block = *source as usize;
        if block < flow.first || block >= flow.first.saturating_add(flow.blocks()) {
            if !enter(sketch, words, block, chosen)? {
                return Ok(false);
            }
        }
    }
    Ok(true)
}

/// An access goes through its pointer.
pub fn serve(sketch: &mut Sketch, flow: &Flow, chosen: Chosen, lags: &Lags, each: Use) {
    let lag = number_at(&lags.lags, each.block.wrapping_sub(flow.first));
    let by = each
        .total
        .wrapping_sub(chosen.candidate.form.constant)
        .wrapping_add(lag);
    sketch.serve(
        each.block,
        each.at,
        through(chosen.register, chosen.claim, by),
    );
}

/// Steps a pointer at the ends of the blocks where it is to be.
pub fn step(sketch: &mut Sketch, flow: &Flow, chosen: Chosen, lags: &Lags) -> Result<(), Memory> {
    for row in 0..flow.blocks() {
        let by = lags.step_at(row);
        if by != 0 {
            sketch.push(
                flow.first.wrapping_add(row),
                Act::Point {
                    into: chosen.register,
                    address: through(chosen.register, chosen.claim, by),
                },
            )?;
        }
    }
    Ok(())
}
