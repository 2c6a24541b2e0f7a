// More arrays in a claim, each once.
ghost use Rattle.std.specs.Prelude.{◌≡◌, ◌∷◌, [], IfOk, slice_set, true};
ghost use Rattle.low_ir.specs.Effects.{is_member};
ghost use Rattle.low_make.specs.Marks.{Marks};
ghost use Rattle.lower_definition.specs.Calls.{noted};

use super::order::is_member;
use std::alloc::Global;
use wcc_base::Memory;

/// One array more, if it isn't there.
pub fn note(claim: &mut Vec<u32>, object: u32) -> Result<(), Memory>
    ensures { IfOk result (λ _. claim.new.items ≡ noted claim.old.items (object ∷ [])) }
{
    if is_member(claim, object) {
        return Ok(());
    }
    claim.push(object)?;
    Ok(())
}

fn mark(seen: &mut Vec<bool>, object: u32)
    ensures { seen.new.items ≡ slice_set seen.old.items object true }
{
    if let Some(mark) = seen.get_mut(object as usize) {
        *mark = true;
    }
}

/// By object: whether it is in a claim.
fn marks_of(alloc: Global, objects: u32, claim: &[u32]) -> Result<Vec<bool>, Memory>
    ensures { IfOk result (λ s. Marks s.items claim.now) }
{
    let mut seen = vec![in alloc; false; objects as usize]?;
    for object in claim {
        mark(&mut seen, *object);
    }
    Ok(seen)
}

fn is_noted(seen: &[bool], claim: &[u32], object: u32) -> bool
    requires { Marks seen.now claim.now }
    ensures { result ≡ is_member claim.now object }
{
    match seen.get(object as usize) {
        Some(mark) => *mark,
        None => is_member(claim, object),
    }
}

/// One array more, if it isn't marked.
fn note_unmarked(seen: &mut Vec<bool>, claim: &mut Vec<u32>, object: u32) -> Result<(), Memory>
    requires { Marks seen.old.items claim.old.items }
    ensures claim { IfOk result (λ _. claim.new.items ≡ noted claim.old.items (object ∷ [])) }
    ensures seen { IfOk result (λ _. Marks seen.new.items claim.new.items) }
{
    if is_noted(seen, claim, object) {
        return Ok(());
    }
    claim.push(object)?;
    mark(seen, object);
    Ok(())
}

/// More of a program's arrays; they are marked, so that none is compared with all others.
pub fn note_all(
    alloc: Global,
    objects: u32,
    claim: &mut Vec<u32>,
    more: &[u32],
) -> Result<(), Memory>
    ensures { IfOk result (λ _. claim.new.items ≡ noted claim.old.items more.now) }
{
    let mut seen = marks_of(alloc, objects, claim)?;
    for object in more {
        note_unmarked(&mut seen, claim, *object)?;
    }
    Ok(())
}
