// Which accesses of a loop a pointer might serve.
use super::flow::Flow;
use super::parts::{Parts, Step};
use low_ir::Base;
use pass_dataflow_facts::Form;
use pass_strength_sketches::acts::{Act, address_of};
use pass_strength_sketches::forms::{has_same_terms, is_near};
use pass_strength_sketches::sketch::{Draft, Line, lines_of};
use pass_strength_sketches::words::Words;
use std::alloc::Global;
use wcc_base::Memory;

/// How many candidates a loop has at most.
const CANDIDATES: usize = 40;

/// A pointer that might step: its array, and how many bytes behind the first of it it is to be.
#[derive(Clone, Copy)]
pub struct Candidate {
    pub object: u32,
    pub form: Form,
    /// What its steps and entries cost.
    pub cost: i64,
    pub chosen: bool,
}

/// An access that a candidate may serve.
#[derive(Clone, Copy)]
pub struct Use {
    pub candidate: usize,
    pub block: usize,
    pub at: usize,
    /// How many bytes behind the candidate's terms it is, by what registers held as its block began.
    pub total: u32,
    /// The register by which it finds its address.
    pub offset: u32,
}

#[derive(Drop)]
pub struct Found {
    pub candidates: Vec<Candidate>,
    pub uses: Vec<Use>,
    /// By block of the loop, what is stepped in it.
    pub steps: Vec<Vec<Step>>,
}

/// An access behind an array's beginning.
#[derive(Clone, Copy)]
struct Reach {
    object: u32,
    offset: u32,
    form: Form,
}

fn reach_of(words: &Words, parts: &Parts, begun: &[Option<Form>], act: Act) -> Option<Reach> {
    let address = address_of(act)?;
    let offset = address.offset?;
    let form = parts.form_at(words, begun, offset)?;
    if form.is_constant() {
        return None;
    }
    match address.base {
        Base::Pointer { .. } => None,
        Base::Object(object) => Some(Reach {
            object,
            offset,
            form: form.moved(address.displacement),
        }),
    }
}

fn has_steps(parts: &Parts, form: Form) -> bool {
    for term in form.terms {
        if term.factor != 0 && parts.is_step(term.register) {
            return true;
        }
    }
    false
}

fn suits(candidate: Candidate, reach: Reach) -> bool {
    candidate.object == reach.object
        && has_same_terms(candidate.form, reach.form)
        && is_near(reach.form.constant.wrapping_sub(candidate.form.constant))
}

/// The form of a candidate for an access: without a constant where the access has room for it.
fn own_form(form: Form) -> Form {
    if is_near(form.constant) {
        form.moved(0u32.wrapping_sub(form.constant))
    } else {
        form
    }
}

impl Found {
    fn candidate_for(&mut self, reach: Reach) -> Result<Option<usize>, Memory> {
        for (at, candidate) in self.candidates.iter().enumerate() {
            if suits(*candidate, reach) {
                return Ok(Some(at));
            }
        }
        let at = self.candidates.len();
        if at >= CANDIDATES {
            return Ok(None);
        }
        self.candidates.push(Candidate {
            object: reach.object,
            form: own_form(reach.form),
            cost: 0,
            chosen: true,
        })?;
        Ok(Some(at))
    }

    fn add(&mut self, reach: Reach, block: usize, at: usize) -> Result<(), Memory> {
        match self.candidate_for(reach)? {
            None => Ok(()),
            Some(candidate) => Ok(
                self.uses.push(Use {
                    candidate,
                    block,
                    at,
                    total: reach.form.constant,
                    offset: reach.offset,
                })?,
            ),
        }
    }
}

/// What is gone through.
#[derive(Clone, Copy)]
pub struct Looking<'a> {
    pub drafts: &'a [Draft],
    pub words: &'a Words,
    pub flow: &'a Flow,
    /// Whether addresses are wanted that step, or ones that stay the same.
    pub stepping: bool,
}

fn look_at(
    looking: &Looking<'_>,
    parts: &Parts,
    found: &mut Found,
    line: Line,
    row: usize,
    at: usize,
) -> Result<(), Memory> {
    if line.dead {
        return Ok(());
    }
    match reach_of(looking.words, parts, looking.flow.begun(row), line.act) {
        None => Ok(()),
        Some(reach) => {
            if has_steps(parts, reach.form) == looking.stepping {
                found.add(reach, looking.flow.first.wrapping_add(row), at)
            } else {
                Ok(())
            }
        }
    }
}

fn look_through(
    alloc: Global,
    looking: &Looking<'_>,
    parts: &mut Parts,
    found: &mut Found,
    row: usize,
) -> Result<(), Memory> {
    let block = looking.flow.first.wrapping_add(row);
    parts.begin();
    for (at, line) in lines_of(looking.drafts, block).iter().enumerate() {
        look_at(looking, parts, found, *line, row, at)?;
        parts.pass(looking.words, looking.flow.begun(row), line.act);
    }
    found.steps.push(parts.all_steps(alloc)?)?;
    Ok(())
}

/// What pointers might serve in a loop.
pub fn find(alloc: Global, looking: &Looking<'_>, parts: &mut Parts) -> Result<Found, Memory> {
    let mut found = Found {
        candidates: Vec::new(alloc),
        uses: Vec::new(alloc),
        steps: Vec::new(alloc),
    };
    for row in 0..looking.flow.blocks() {
        if looking.flow.is_seen(row) {
            look_through(alloc, looking, parts, &mut found, row)?;
        } else {
            found.steps.push(Vec::new(alloc))?;
        }
    }
    Ok(found)
}
