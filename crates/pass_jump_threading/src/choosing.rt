// Which registers have one word in the whole function. Nothing is proved of it: where one hasn't, the program stays as it is.
use super::facts::{Fact, pass_all};
use low_ir::Function;
use low_parts::accesses::written;
use std::alloc::Global;
use wcc_base::Memory;

fn count(written: &mut Vec<u8>, register: u32) {
    if let Some(times) = written.get_mut(register as usize) {
        *times = times.saturating_add(1);
    }
}

/// By register, how often it is written, parameters once more.
fn times_written(alloc: Global, function: &Function) -> Result<Vec<u8>, Memory> {
    let mut times = vec![in alloc; 0u8; function.registers as usize]?;
    for register in &function.parameters {
        count(&mut times, *register);
    }
    for block in &function.blocks {
        for instr in &block.code {
            if let Some(register) = written(instr) {
                count(&mut times, register);
            }
        }
    }
    Ok(times)
}

/// What is known at the end of the first block.
fn facts_of_first(alloc: Global, function: &Function) -> Result<Vec<Fact>, Memory> {
    let nothing: Vec<Option<u32>> = Vec::new(alloc);
    let mut facts = Vec::new(alloc);
    if let Some(block) = function.blocks.get(0) {
        pass_all(alloc, &nothing, &mut facts, &block.code)?;
    }
    Ok(facts)
}

/// By register, the word that the first block writes to it, where nothing else does.
pub fn held_in(alloc: Global, function: &Function) -> Result<Vec<Option<u32>>, Memory> {
    let times = times_written(alloc, function)?;
    let facts = facts_of_first(alloc, function)?;
    let mut held: Vec<Option<u32>> = vec![in alloc; None; function.registers as usize]?;
    for fact in &facts {
        if let Some(1) = times.get(fact.register as usize) {
            if let Some(word) = held.get_mut(fact.register as usize) {
                *word = fact.word;
            }
        }
    }
    Ok(held)
}
