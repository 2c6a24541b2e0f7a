// The new code of a block, made of the old.
ghost use Rattle.std.specs.Prelude.{◌≡◌, true, [], map, IfOk, IfSome};
ghost use Rattle.low_ir.specs.View.{instr_of};
ghost use Rattle.pass_strength_reduction_law.specs.Knowing.{Knowing};
ghost use Rattle.pass_strength_reduction_law.specs.Steps.{Code};
ghost use Rattle.pass_dataflow_facts.specs.Facts.{all_true};
ghost use Rattle.pass_strength_reduction.specs.Making.{WritesSpare};
ghost use Rattle.pass_strength_reduction.specs.Scenes.{Adds, Fits, IsStep, Scene, SoFar, Takes, left_of};

use super::inserting::is_sure;
use super::registers::is_spare;
use super::scope::{Scope, is_placed};
use super::serving::{Way, through};
use low_ir::Instr;
use low_parts::accesses::written;
use low_parts::same::same_instr;
use pass_dataflow_facts::Edit;
use pass_dataflow_transfer::Known;
use std::alloc::Global;
use wcc_base::Memory;

/// Something of the new code, and whether it takes the next of the old.
#[derive(Drop)]
struct Step {
    instr: Instr,
    takes: bool,
}

/// The same instruction.
fn keep(alloc: Global, known: &mut Known, registers: u32, instr: &Instr) -> Result<Instr, Memory>
    ensures { IfOk result (λ j. (sc : Scene) → sc.fn.size ≡ registers → Takes sc (instr_of j) (instr_of instr.now) (all_true known.old.facts.items) (all_true known.new.facts.items)) }
{
    let same = same_instr(alloc, instr)?;
    known.pass(registers, instr);
    Ok(same)
}

fn keep_next(
    alloc: Global,
    scope: &Scope,
    known: &mut Known,
    rest: &[Instr],
) -> Result<Option<Step>, Memory>
    ensures { IfOk result (λ o. IfSome o (λ st. (sc : Scene) → Fits scope.now.claims.now scope.now.alone.now scope.now.objects scope.now.registers scope.now.spare.now sc → IsStep sc st.takes (instr_of st.instr) (map instr_of rest.now) (all_true known.old.facts.items) (all_true known.new.facts.items))) }
{
    match rest.split_first() {
        None => Ok(None),
        Some((first, _)) => Ok(Some(Step {
            instr: keep(alloc, known, scope.registers, first)?,
            takes: true,
        })),
    }
}

/// The next instruction, another way.
fn go_through(
    alloc: Global,
    scope: &Scope,
    known: &mut Known,
    instr: &Instr,
    way: Way,
) -> Result<Option<Instr>, Memory>
    ensures { IfOk result (λ o. IfSome o (λ j. (sc : Scene) → Fits scope.now.claims.now scope.now.alone.now scope.now.objects scope.now.registers scope.now.spare.now sc → Takes sc (instr_of j) (instr_of instr.now) (all_true known.old.facts.items) (all_true known.new.facts.items))) }
{
    let Some(new) = through(scope, &known.facts, instr, way) else {
        return Ok(None);
    };
    if !is_placed(alloc, scope, &new)? {
        return Ok(None);
    }
    known.pass(scope.registers, instr);
    Ok(Some(new))
}

fn next_through(
    alloc: Global,
    scope: &Scope,
    known: &mut Known,
    rest: &[Instr],
    way: Way,
) -> Result<Option<Step>, Memory>
    ensures { IfOk result (λ o. IfSome o (λ st. (sc : Scene) → Fits scope.now.claims.now scope.now.alone.now scope.now.objects scope.now.registers scope.now.spare.now sc → IsStep sc st.takes (instr_of st.instr) (map instr_of rest.now) (all_true known.old.facts.items) (all_true known.new.facts.items))) }
{
    match rest.split_first() {
        None => Ok(None),
        Some((first, _)) => match go_through(alloc, scope, known, first, way)? {
            None => Ok(None),
            Some(instr) => Ok(Some(Step { instr, takes: true })),
        },
    }
}

fn writes_spare(spare: &[bool], instr: &Instr) -> bool
    ensures { result ≡ true → WritesSpare spare.now (instr_of instr.now) }
{
    match written(instr) {
        None => false,
        Some(register) => is_spare(spare, register),
    }
}

/// One instruction more.
fn insert(
    alloc: Global,
    scope: &Scope,
    known: &mut Known,
    instr: &Instr,
) -> Result<Option<Instr>, Memory>
    ensures { IfOk result (λ o. IfSome o (λ j. (sc : Scene) → Fits scope.now.claims.now scope.now.alone.now scope.now.objects scope.now.registers scope.now.spare.now sc → Adds sc (instr_of j) (all_true known.old.facts.items) (all_true known.new.facts.items))) }
{
    if !is_sure(scope, &known.facts, instr) {
        return Ok(None);
    }
    if !writes_spare(scope.spare, instr) {
        return Ok(None);
    }
    if !is_placed(alloc, scope, instr)? {
        return Ok(None);
    }
    let same = same_instr(alloc, instr)?;
    known.pass(scope.registers, instr);
    Ok(Some(same))
}

fn besides(
    alloc: Global,
    scope: &Scope,
    known: &mut Known,
    rest: &[Instr],
    instr: &Instr,
) -> Result<Option<Step>, Memory>
    ensures { IfOk result (λ o. IfSome o (λ st. (sc : Scene) → Fits scope.now.claims.now scope.now.alone.now scope.now.objects scope.now.registers scope.now.spare.now sc → IsStep sc st.takes (instr_of st.instr) (map instr_of rest.now) (all_true known.old.facts.items) (all_true known.new.facts.items))) }
{
    match insert(alloc, scope, known, instr)? {
        None => Ok(None),
        Some(instr) => Ok(Some(Step {
            instr,
            takes: false,
        })),
    }
}

fn one_edit(
    alloc: Global,
    scope: &Scope,
    known: &mut Known,
    rest: &[Instr],
    edit: &Edit,
) -> Result<Option<Step>, Memory>
    ensures { IfOk result (λ o. IfSome o (λ st. (sc : Scene) → Fits scope.now.claims.now scope.now.alone.now scope.now.objects scope.now.registers scope.now.spare.now sc → IsStep sc st.takes (instr_of st.instr) (map instr_of rest.now) (all_true known.old.facts.items) (all_true known.new.facts.items))) }
{
    match edit {
        Edit::Keep => keep_next(alloc, scope, known, rest),
        Edit::Through {
            register,
            claim,
            displacement,
        } => {
            let way = Way {
                register: *register,
                claim: *claim,
                displacement: *displacement,
            };
            next_through(alloc, scope, known, rest, way)
        }
        Edit::Insert(instr) => besides(alloc, scope, known, rest, instr),
    }
}

/// What is left of the old code.
fn left_of(rest: &[Instr], takes: bool) -> &[Instr]
    ensures { result.now ≡ left_of takes rest.now }
{
    if !takes {
        return rest;
    }
    match rest.split_first() {
        None => rest,
        Some((_, others)) => others,
    }
}

/// All that is left stays as it is.
fn keep_rest(
    alloc: Global,
    known: &mut Known,
    registers: u32,
    rest: &[Instr],
    made: &mut Vec<Instr>,
) -> Result<(), Memory>
    ensures { IfOk result (λ _. (sc : Scene) → sc.fn.size ≡ registers → (begun : Knowing) (whole : Code) → SoFar sc begun whole (all_true known.old.facts.items) (map instr_of rest.now) (map instr_of made.old.items) → SoFar sc begun whole (all_true known.new.facts.items) [] (map instr_of made.new.items)) }
{
    for instr in rest {
        made.push(keep(alloc, known, registers, instr)?)?;
    }
    Ok(())
}

/// The code that edits make, as far as they are right.
pub fn edited(
    alloc: Global,
    scope: &Scope,
    known: &mut Known,
    code: &[Instr],
    edits: &[Edit],
) -> Result<Option<Vec<Instr>>, Memory>
    ensures { IfOk result (λ o. IfSome o (λ made. (sc : Scene) → Fits scope.now.claims.now scope.now.alone.now scope.now.objects scope.now.registers scope.now.spare.now sc → SoFar sc (all_true known.old.facts.items) (map instr_of code.now) (all_true known.new.facts.items) [] (map instr_of made.items))) }
{
    let mut made = Vec::new(alloc);
    let mut rest = code;
    for edit in edits {
        match one_edit(alloc, scope, known, rest, edit)? {
            None => return Ok(None),
            Some(step) => {
                rest = left_of(rest, step.takes);
                made.push(step.instr)?;
            }
        }
    }
    keep_rest(alloc, known, scope.registers, rest, &mut made)?;
    Ok(Some(made))
}
