// What functions do with registers.
ghost use Rattle.std.specs.Prelude.{◌≡◌, ◌+◌, ◌^◌, ◌<◌, ◌++◌, [], map, length, IfOk, OnOk, slice_index_or};
ghost use Rattle.low_ir.specs.Formed.{callee};
ghost use Rattle.low_ir.specs.View.{instr_of, block_of, function_of};
ghost use Rattle.low_ir.specs.Programs.{low_of};
ghost use Rattle.low_ir.specs.Placings.{placings_of, assignment_of, placed_of};
ghost use Rattle.image_frames.specs.Needs.{outlines_of};
ghost use Rattle.image_saving.specs.Tables.{places_marked};
ghost use Rattle.image_saving.specs.Walks.{parameters_from, mask_at, result_marked, passed_marked, code_marked, blocks_marked, site_at, code_calls, blocks_call, homes_marked, outline_in, outlines_from, spots_in, HaveSpots};

use super::sites::Site;
use super::tables::{Table, mark, mark_all, mark_kept};
use low_ir::{Block, Function, Instr, LowReg, Place};
use low_parts::accesses::written;
use std::alloc::Global;
use std::marker::Model;
use wcc_base::{Items, Memory};

/// The place of a register of function `number`.
fn place_of(code: &LowReg, number: usize, register: u32) -> Place
    ensures { result ≡ (assignment_of code.now).place number register }
{
    match code.placings.get(number) {
        Some(placing) => match placing.places.get(register as usize) {
            Some(place) => *place,
            None => Place::Slot(register),
        },
        None => Place::Slot(register),
    }
}

/// The registers that the call at a place of the code of function `number` keeps, as bits.
fn kept_at(code: &LowReg, number: usize, at: usize) -> u32
    ensures { result ≡ mask_at (placings_of code.now) number at }
{
    match code.placings.get(number) {
        Some(placing) => match placing.kept.get(at) {
            Some(kept) => *kept,
            None => 0,
        },
        None => 0,
    }
}

fn places_of(
    alloc: Global,
    code: &LowReg,
    number: usize,
    registers: &[u32],
) -> Result<Vec<Place>, Memory>
    ensures { IfOk result (λ places. places.items ≡ map ((assignment_of code.now).place number) registers.now) }
{
    let mut places = Vec::new(alloc);
    for register in registers {
        places.push(place_of(code, number, *register))?;
    }
    Ok(places)
}

/// The places of each function's parameters.
fn parameters(alloc: Global, code: &LowReg) -> Result<Vec<Items<Place>>, Memory>
    ensures { IfOk result (λ all. all.items ≡ parameters_from (assignment_of code.now) 0 (map function_of code.now.low.functions.items)) }
{
    let mut all = Vec::new(alloc);
    for (number, function) in code.low.functions.iter().enumerate() {
        let places = places_of(alloc, code, number, &function.parameters)?;
        all.push(Items::new(places))?;
    }
    Ok(all)
}

/// The places of the parameters of a function; none, where there is no such function.
fn parameters_at(parameters: &[Items<Place>], function: usize) -> &[Place]
    ensures { result.now ≡ slice_index_or parameters.now function [] }
{
    match parameters.get(function) {
        Some(places) => places.as_slice(),
        None => &[],
    }
}

/// The function that an instruction calls.
fn callee(instr: &Instr) -> Option<u32>
    ensures { result ≡ callee (instr_of instr.now) }
{
    match instr {
        Instr::Set { .. } => None,
        Instr::Operate { .. } => None,
        Instr::Point { .. } => None,
        Instr::Load { .. } => None,
        Instr::Store { .. } => None,
        Instr::Put { .. } => None,
        Instr::Get { .. } => None,
        Instr::Call { function, .. } => Some(*function),
    }
}

fn mark_result(table: &mut [bool], code: &LowReg, number: usize, register: Option<u32>)
    ensures { table.new ≡ result_marked (placings_of code.now) number table.old register }
{
    match register {
        Some(register) => mark(table, place_of(code, number, register)),
        None => {}
    }
}

fn mark_passed(table: &mut [bool], parameters: &[Items<Place>], function: Option<u32>)
    ensures { table.new ≡ passed_marked parameters.now table.old function }
{
    match function {
        Some(function) => mark_all(table, parameters_at(parameters, function as usize)),
        None => {}
    }
}

fn mark_code(
    table: &mut [bool],
    code: &LowReg,
    number: usize,
    parameters: &[Items<Place>],
    instrs: &[Instr],
)
    ensures { table.new ≡ code_marked (placings_of code.now) number parameters.now table.old (map instr_of instrs.now) }
{
    for instr in instrs {
        mark_result(table, code, number, written(instr));
        mark_passed(table, parameters, callee(instr));
    }
}

fn mark_blocks(
    table: &mut [bool],
    code: &LowReg,
    number: usize,
    parameters: &[Items<Place>],
    blocks: &[Block],
)
    ensures { table.new ≡ blocks_marked (placings_of code.now) number parameters.now table.old (map block_of blocks.now) }
{
    for block in blocks {
        mark_code(table, code, number, parameters, &block.code);
    }
}

fn put_site(
    sites: &mut Vec<Site>,
    code: &LowReg,
    number: usize,
    at: usize,
    function: Option<u32>,
) -> Result<(), Memory>
    ensures { OnOk result (sites.new.items ≡ sites.old.items ++ site_at (placings_of code.now) number at function) }
{
    match function {
        Some(function) => sites.push(Site::new(function, kept_at(code, number, at)))?,
        None => {}
    }
    Ok(())
}

fn put_sites(
    sites: &mut Vec<Site>,
    code: &LowReg,
    number: usize,
    at: usize,
    instrs: &[Instr],
) -> Result<(), Memory>
    requires { at + length instrs.now < 2 ^ 64 }
    ensures { OnOk result (sites.new.items ≡ sites.old.items ++ code_calls (placings_of code.now) number at (map instr_of instrs.now)) }
{
    let mut place = at;
    for instr in instrs {
        put_site(sites, code, number, place, callee(instr))?;
        place += 1;
    }
    Ok(())
}

fn put_calls(
    sites: &mut Vec<Site>,
    code: &LowReg,
    number: usize,
    blocks: &[Block],
) -> Result<(), Memory>
    requires { spots_in (map block_of blocks.now) < 2 ^ 64 }
    ensures { OnOk result (sites.new.items ≡ sites.old.items ++ blocks_call (placings_of code.now) number 0 (map block_of blocks.now)) }
{
    let mut at = 0;
    for block in blocks {
        put_sites(sites, code, number, at, &block.code)?;
        at += block.code.len() + 1;
    }
    Ok(())
}

/// What a function does with registers: by register, whether it writes it, gets an argument in it, or has a
/// word for it in its frame; and its calls.
#[derive(Drop)]
pub struct Outline {
    pub written: Table,
    pub passed: Table,
    pub housed: Table,
    pub sites: Items<Site>,
}

impl Model for Outline {
    ghost use Rattle.image_frames.specs.Needs.{Outline as Outlined};

    ghost Value = { Outlined };

    ghost view = { λ o. record { written = o.written; passed = o.passed; housed = o.housed; sites = o.sites } };
}

fn mark_registers(table: &mut [bool], code: &LowReg, number: usize, registers: &[u32])
    ensures { table.new ≡ places_marked table.old (map ((assignment_of code.now).place number) registers.now) }
{
    for register in registers {
        mark(table, place_of(code, number, *register));
    }
}

fn mark_homes(table: &mut [bool], parameters: &[Items<Place>], sites: &[Site])
    ensures { table.new ≡ homes_marked parameters.now table.old sites.now }
{
    for site in sites {
        mark_kept(table, site, parameters_at(parameters, site.callee()));
    }
}

fn describe(
    alloc: Global,
    code: &LowReg,
    number: usize,
    parameters: &[Items<Place>],
    function: &Function,
) -> Result<Outline, Memory>
    requires { spots_in (function_of function.now).blocks < 2 ^ 64 }
    ensures { IfOk result (λ o. o ≡ outline_in (placings_of code.now) number parameters.now (function_of function.now)) }
{
    let mut sites = Vec::new(alloc);
    put_calls(&mut sites, code, number, &function.blocks)?;
    let mut written = [false; 24];
    mark_blocks(&mut written, code, number, parameters, &function.blocks);
    let mut passed = [false; 24];
    mark_registers(&mut passed, code, number, &function.parameters);
    let mut housed = passed;
    mark_homes(&mut housed, parameters, &sites);
    Ok(Outline {
        written,
        passed,
        housed,
        sites: Items::new(sites),
    })
}

/// What each function does with registers.
fn described(
    alloc: Global,
    code: &LowReg,
    parameters: &[Items<Place>],
) -> Result<Vec<Outline>, Memory>
    requires { HaveSpots (map function_of code.now.low.functions.items) }
    ensures { IfOk result (λ os. os.items ≡ outlines_from (placings_of code.now) parameters.now 0 (map function_of code.now.low.functions.items)) }
{
    let mut outlines = Vec::new(alloc);
    for (number, function) in code.low.functions.iter().enumerate() {
        outlines.push(describe(alloc, code, number, parameters, function)?)?;
    }
    Ok(outlines)
}

/// What each function does with registers.
#[tactic(auto, using(crate::proofs::WalkLemmas::outlines_found))]
pub fn outlines(alloc: Global, code: &LowReg) -> Result<Vec<Outline>, Memory>
    requires { HaveSpots (low_of code.now.low).functions }
    ensures { IfOk result (λ os. os.items ≡ outlines_of (placed_of code.now)) }
{
    let parameters = parameters(alloc, code)?;
    described(alloc, code, &parameters)
}
