// The blocks and loops of a function.
use super::acts::{act_of, arguments_of, nexts, read_at, read_by, register_of, written};
use super::tables::{add_one, flag_at, list_at, number_at, set_flag, set_number};
use low_ir::{Block, Function, Instr, Loop};
use std::alloc::Global;
use wcc_base::Memory;

/// How often a block counts at most.
const MANY: i64 = 1_000_000_000;

#[derive(Drop)]
pub struct Map {
    /// By block, whether a way leads to it.
    pub reached: Vec<bool>,
    /// By block, those that lead to it and are reached themselves.
    pub sources: Vec<Vec<u32>>,
    /// By block, how often it may start for each call of its function.
    pub times: Vec<i64>,
    /// By block, whether it is the header or the latch of a loop.
    pub bounds: Vec<bool>,
    /// By block, how many calls it has.
    pub calls: Vec<u32>,
    /// By loop, how many loops are within one another in it, itself among them.
    pub heights: Vec<u32>,
}

fn add_source(sources: &mut [Vec<u32>], block: u32, source: u32) -> Result<(), Memory> {
    match sources.get_mut(block as usize) {
        None => Ok(()),
        Some(list) => Ok(list.push(source)?),
    }
}

fn add_sources(sources: &mut [Vec<u32>], block: &Block, number: u32) -> Result<(), Memory> {
    for next in nexts(block.end) {
        if let Some(next) = next {
            add_source(sources, next, number)?;
        }
    }
    Ok(())
}

fn sources_of(alloc: Global, blocks: &[Block], reached: &[bool]) -> Result<Vec<Vec<u32>>, Memory> {
    let mut sources = Vec::new(alloc);
    for _ in 0..blocks.len() {
        sources.push(Vec::new(alloc))?;
    }
    let mut number = 0u32;
    for block in blocks {
        if flag_at(reached, number as usize) {
            add_sources(&mut sources, block, number)?;
        }
        number = number.saturating_add(1);
    }
    Ok(sources)
}

/// The blocks to which one leads are still to be gone through, those that are new.
fn reach_from(reached: &mut [bool], work: &mut Vec<usize>, block: &Block) -> Result<(), Memory> {
    for next in nexts(block.end) {
        if let Some(next) = next {
            let next = next as usize;
            if next < reached.len() && !flag_at(reached, next) {
                set_flag(reached, next, true);
                work.push(next)?;
            }
        }
    }
    Ok(())
}

fn reached_in(alloc: Global, blocks: &[Block]) -> Result<Vec<bool>, Memory> {
    let mut reached = vec![in alloc; false; blocks.len()]?;
    let mut work = vec![in alloc; 0usize; 1]?;
    set_flag(&mut reached, 0, true);
    for _ in 0..blocks.len() {
        match work.pop() {
            None => return Ok(reached),
            Some(number) => {
                if let Some(block) = blocks.get(number) {
                    reach_from(&mut reached, &mut work, block)?;
                }
            }
        }
    }
    Ok(reached)
}

fn calls_in(block: &Block) -> u32 {
    let mut calls = 0u32;
    for instr in &block.code {
        if let Instr::Call { .. } = instr {
            calls = calls.saturating_add(1);
        }
    }
    calls
}

fn calls_of(alloc: Global, blocks: &[Block]) -> Result<Vec<u32>, Memory> {
    let mut calls = Vec::new(alloc);
    for block in blocks {
        calls.push(calls_in(block))?;
    }
    Ok(calls)
}

fn multiply(times: &mut [i64], at: usize, by: u32) {
    if let Some(number) = times.get_mut(at) {
        if *number < MANY {
            *number = number.wrapping_mul(i64::from(by.max(1)));
        }
    }
}

/// By block, the product of the bounds of the loops in which it is.
fn times_of(alloc: Global, loops: &[Loop], blocks: usize) -> Result<Vec<i64>, Memory> {
    let mut times = vec![in alloc; 1i64; blocks]?;
    for each in loops {
        for block in each.header..=each.latch {
            multiply(&mut times, block as usize, each.max);
        }
    }
    Ok(times)
}

fn bounds_of(alloc: Global, loops: &[Loop], blocks: usize) -> Result<Vec<bool>, Memory> {
    let mut bounds = vec![in alloc; false; blocks]?;
    for each in loops {
        set_flag(&mut bounds, each.header as usize, true);
        set_flag(&mut bounds, each.latch as usize, true);
    }
    Ok(bounds)
}

/// The numbers of loops, the shortest ones first.
fn in_order(alloc: Global, loops: &[Loop]) -> Result<Vec<usize>, Memory> {
    let mut sizes = Vec::new(alloc);
    for (number, each) in loops.iter().enumerate() {
        sizes.push((each.latch.wrapping_sub(each.header), number))?;
    }
    sizes.sort_by_key(|pair| pair.0)?;
    let mut numbers = Vec::new(alloc);
    for pair in &sizes {
        numbers.push(pair.1)?;
    }
    Ok(numbers)
}

/// The height of a loop, by how high those of its blocks are.
fn height_of(highest: &mut [u32], each: Loop) -> u32 {
    let mut height = 0u32;
    for block in each.header..=each.latch {
        height = height.max(number_at(highest, block as usize));
    }
    let height = height.saturating_add(1);
    for block in each.header..=each.latch {
        set_number(highest, block as usize, height);
    }
    height
}

fn heights_of(alloc: Global, loops: &[Loop], blocks: usize) -> Result<Vec<u32>, Memory> {
    let mut heights = vec![in alloc; 0u32; loops.len()]?;
    let mut highest = vec![in alloc; 0u32; blocks]?;
    for number in &in_order(alloc, loops)? {
        if let Some(each) = loops.get(*number) {
            let height = height_of(&mut highest, *each);
            set_number(&mut heights, *number, height);
        }
    }
    Ok(heights)
}

pub fn map_of(alloc: Global, function: &Function) -> Result<Map, Memory> {
    let blocks = function.blocks.len();
    let reached = reached_in(alloc, &function.blocks)?;
    Ok(Map {
        sources: sources_of(alloc, &function.blocks, &reached)?,
        reached,
        times: times_of(alloc, &function.loops, blocks)?,
        bounds: bounds_of(alloc, &function.loops, blocks)?,
        calls: calls_of(alloc, &function.blocks)?,
        heights: heights_of(alloc, &function.loops, blocks)?,
    })
}

impl Map {
    pub fn times_at(&self, block: usize) -> i64 {
        match self.times.get(block) {
            None => 1,
            Some(times) => *times,
        }
    }

    pub fn sources_at(&self, block: usize) -> &[u32] {
        list_at(&self.sources, block)
    }
}

/// How often each register is read or written by instructions and ends of blocks.
pub fn named(alloc: Global, function: &Function) -> Result<Vec<u32>, Memory> {
    let mut counts = vec![in alloc; 0u32; function.registers as usize]?;
    for parameter in &function.parameters {
        add_one(&mut counts, *parameter as usize);
    }
    for block in &function.blocks {
        for instr in &block.code {
            name_instr(&mut counts, instr);
        }
        for register in read_at(block.end) {
            name(&mut counts, register);
        }
    }
    Ok(counts)
}

fn name(counts: &mut [u32], register: Option<u32>) {
    if let Some(register) = register {
        add_one(counts, register as usize);
    }
}

fn name_instr(counts: &mut [u32], instr: &Instr) {
    let act = act_of(instr);
    name(counts, written(act));
    for register in read_by(act) {
        name(counts, register);
    }
    for operand in arguments_of(instr) {
        name(counts, register_of(*operand));
    }
}
