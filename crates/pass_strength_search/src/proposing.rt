// A proposal for a function.
use super::stepping::{Known, Work, step_all};
use low_ir::{Base, Function, Instr};
use pass_dataflow_facts::{Change, Edit, Fact, Proposal};
use pass_dataflow_solution::needs::needs_of;
use pass_dataflow_solution::stating::{Stated, add_pointers, add_unreached, words_known};
use pass_strength_sketches::acts::{Act, address_of};
use pass_strength_sketches::map::{map_of, named};
use pass_strength_sketches::sketch::{Draft, Line, Sketch};
use pass_strength_sketches::words::words_of;
use std::alloc::Global;
use wcc_base::Memory;

/// How often a function is searched at most.
const SEARCHES: u32 = 4;

fn instr_of(act: Act) -> Option<Instr> {
    match act {
        Act::Set { into, value } => Some(Instr::Set { into, value }),
        Act::Operate {
            operator,
            into,
            left,
            right,
        } => Some(Instr::Operate {
            operator,
            into,
            left,
            right,
        }),
        Act::Point { into, address } => Some(Instr::Point { into, address }),
        _ => None,
    }
}

/// What becomes of an instruction that the function has.
fn edit_of(line: &Line) -> Edit {
    if line.served.is_none() {
        return Edit::Keep;
    }
    match address_of(line.act) {
        None => Edit::Keep,
        Some(address) => match address.base {
            Base::Object(_) => Edit::Keep,
            Base::Pointer { register, claim } => Edit::Through {
                register,
                claim,
                displacement: address.displacement,
            },
        },
    }
}

fn is_changed(draft: &Draft) -> bool {
    for (at, line) in draft.lines.iter().enumerate() {
        if at >= draft.own || line.served.is_some() {
            return true;
        }
    }
    false
}

fn edits_of(alloc: Global, draft: &Draft) -> Result<Vec<Edit>, Memory> {
    let mut edits = Vec::new(alloc);
    if !is_changed(draft) {
        return Ok(edits);
    }
    for (at, line) in draft.lines.iter().enumerate() {
        if at < draft.own {
            edits.push(edit_of(line))?;
        } else if let Some(instr) = instr_of(line.act) {
            edits.push(Edit::Insert(instr))?;
        }
    }
    Ok(edits)
}

fn changes_of(
    alloc: Global,
    drafts: &[Draft],
    facts: Vec<Vec<Fact>>,
) -> Result<Vec<Change>, Memory> {
    let mut facts = facts;
    let mut changes = Vec::new(alloc);
    for (block, draft) in drafts.iter().enumerate() {
        let own = match facts.get_mut(block) {
            None => Vec::new(alloc),
            Some(list) => std::mem::replace(list, Vec::new(alloc)),
        };
        changes.push(Change {
            facts: own,
            edits: edits_of(alloc, draft)?,
        })?;
    }
    Ok(changes)
}

fn spare_in(alloc: Global, function: &Function) -> Result<Vec<bool>, Memory> {
    let mut spare = Vec::new(alloc);
    for count in &named(alloc, function)? {
        spare.push(*count == 0)?;
    }
    Ok(spare)
}

/// What has come of a search.
#[derive(Drop)]
enum Answer {
    Nothing,
    Found(Proposal),
    /// These registers may hold pointers where they are to be words.
    Lacks(Vec<u32>),
}

/// The facts with which a sketch can be followed.
fn followed(
    alloc: Global,
    known: &Known<'_>,
    sketch: &Sketch,
    spare: Vec<bool>,
) -> Result<Answer, Memory> {
    let reached = &known.map.reached;
    let Some(needs) = needs_of(alloc, sketch, known.function.registers)? else {
        return Ok(Answer::Nothing);
    };
    let Some(stated) = words_known(alloc, known.words, sketch, &needs, known.function)? else {
        return Ok(Answer::Nothing);
    };
    let Stated { facts, lacking } = stated;
    if !lacking.is_empty() {
        return Ok(Answer::Lacks(lacking));
    }
    let mut facts = facts;
    if !add_pointers(sketch, reached, &mut facts)? {
        return Ok(Answer::Nothing);
    }
    add_unreached(sketch, reached, &mut facts)?;
    Ok(Answer::Found(Proposal {
        spare,
        changes: changes_of(alloc, &sketch.drafts, facts)?,
    }))
}

fn searched(alloc: Global, known: &Known<'_>, alone: &mut Vec<u32>) -> Result<Answer, Memory> {
    let spare = spare_in(alloc, known.function)?;
    let mut work = Work::new(alloc, known, &spare, alone)?;
    if !step_all(alloc, known, &mut work)? || work.sketch.pointers.is_empty() {
        return Ok(Answer::Nothing);
    }
    followed(alloc, known, &work.sketch, spare)
}

/// Pointers that step with the induction variables of a function's loops, where that pays. Claims that list one array alone come
/// behind the others, in the order of `alone`.
pub fn proposed(
    alloc: Global,
    claims: &[Vec<u32>],
    alone: &mut Vec<u32>,
    function: &Function,
) -> Result<Option<Proposal>, Memory> {
    let Ok(count) = u32::try_from(claims.len()) else {
        return Ok(None);
    };
    if function.loops.is_empty() {
        return Ok(None);
    }
    let map = map_of(alloc, function)?;
    let mut words = words_of(alloc, function)?;
    for _ in 0..SEARCHES {
        let known = Known {
            function,
            map: &map,
            words: &words,
            claims: count,
        };
        match searched(alloc, &known, alone)? {
            Answer::Nothing => return Ok(None),
            Answer::Found(proposal) => return Ok(Some(proposal)),
            Answer::Lacks(registers) => words.forget(&function.blocks, &registers),
        }
    }
    Ok(None)
}
