// Which ways runs take through a function. Nothing is proved of it: it guides a choice that is checked.
use super::flags::{flag_at, set_flag};
use low_ir::{Block, End, Function, Instr, Operand};
use low_parts::accesses::written;
use std::alloc::Global;
use wcc_base::Memory;

/// How all runs of a function begin: through blocks as long as words that are known decide, up to the first loop.
#[derive(Drop)]
pub struct Beginning {
    /// By block, whether it is one of these.
    pub passed: Vec<bool>,
    /// The block to which they lead.
    pub last: u32,
}

fn word_of(known: &[Option<u32>], operand: Operand) -> Option<u32> {
    match operand {
        Operand::Constant(word) => Some(word),
        Operand::Register(register) => match known.get(register as usize) {
            None => None,
            Some(word) => *word,
        },
    }
}

fn note(known: &mut [Option<u32>], register: u32, word: Option<u32>) {
    if let Some(own) = known.get_mut(register as usize) {
        *own = word;
    }
}

fn result_of(known: &[Option<u32>], instr: &Instr) -> Option<u32> {
    match instr {
        Instr::Set { value, .. } => word_of(known, *value),
        Instr::Operate {
            operator,
            left,
            right,
            ..
        } => {
            let x = word_of(known, *left)?;
            let y = word_of(known, *right)?;
            Some(operator.value(x, y))
        }
        _ => None,
    }
}

fn learn(known: &mut [Option<u32>], code: &[Instr]) {
    for instr in code {
        if let Some(register) = written(instr) {
            let word = result_of(known, instr);
            note(known, register, word);
        }
    }
}

fn decided(known: &[Option<u32>], end: End) -> Option<u32> {
    match end {
        End::Return { .. } => None,
        End::Jump { block } => Some(block),
        End::Branch {
            condition,
            left,
            right,
            taken,
            other,
        } => {
            let x = word_of(known, left)?;
            let y = word_of(known, right)?;
            Some(if condition.holds(x, y) { taken } else { other })
        }
    }
}

fn is_header(function: &Function, block: u32) -> bool {
    for each in &function.loops {
        if each.header == block {
            return true;
        }
    }
    false
}

/// Where all runs go on to from a block.
fn next_of(known: &mut [Option<u32>], function: &Function, at: u32) -> Option<u32> {
    if is_header(function, at) {
        return None;
    }
    let block = function.blocks.get(at as usize)?;
    learn(known, &block.code);
    decided(known, block.end)
}

pub fn beginning_of(alloc: Global, function: &Function) -> Result<Beginning, Memory> {
    let mut known = vec![in alloc; None; function.registers as usize]?;
    let mut passed = vec![in alloc; false; function.blocks.len()]?;
    let mut last = 0u32;
    for _ in 0..function.blocks.len() {
        let Some(next) = next_of(&mut known, function, last) else {
            return Ok(Beginning { passed, last });
        };
        set_flag(&mut passed, last);
        last = next;
    }
    Ok(Beginning { passed, last })
}

fn leads_surely(sure: &[bool], at: u32, end: End) -> bool {
    match end {
        End::Return { .. } => false,
        End::Jump { block } => block <= at || flag_at(sure, block),
        End::Branch { taken, other, .. } => flag_at(sure, taken) && flag_at(sure, other),
    }
}

/// Whether each run of a function that ends comes to a block, by the last blocks first.
pub fn is_certain(
    alloc: Global,
    begun: &Beginning,
    blocks: &[Block],
    block: u32,
) -> Result<bool, Memory> {
    let mut sure = vec![in alloc; false; blocks.len()]?;
    let Ok(count) = u32::try_from(blocks.len()) else {
        return Ok(false);
    };
    for back in 0..count {
        let at = count.wrapping_sub(back).wrapping_sub(1);
        if let Some(it) = blocks.get(at as usize) {
            if at == block || leads_surely(&sure, at, it.end) {
                set_flag(&mut sure, at);
            }
        }
    }
    Ok(flag_at(&begun.passed, block) || flag_at(&sure, begun.last))
}

/// The fewest from a block on, by those of the blocks behind it; a way back ends nowhere.
fn fewest_from(fewest: &[u64], at: u32, block: u32) -> u64 {
    if block <= at {
        return u64::MAX;
    }
    match fewest.get(block as usize) {
        None => 0,
        Some(number) => *number,
    }
}

fn fewest_behind(fewest: &[u64], at: u32, end: End) -> u64 {
    match end {
        End::Return { .. } => 0,
        End::Jump { block } => fewest_from(fewest, at, block),
        End::Branch { taken, other, .. } => fewest_from(fewest, at, taken).min(fewest_from(
            fewest, at, other,
        )),
    }
}

/// How much each run of a function does at least, where so much is done in each block.
pub fn fewest(
    alloc: Global,
    begun: &Beginning,
    blocks: &[Block],
    done: &[u64],
) -> Result<u64, Memory> {
    let mut fewest = vec![in alloc; 0u64; blocks.len()]?;
    let mut total = 0u64;
    let Ok(count) = u32::try_from(blocks.len()) else {
        return Ok(0);
    };
    for back in 0..count {
        let at = count.wrapping_sub(back).wrapping_sub(1);
        if let Some(it) = blocks.get(at as usize) {
            let own = match done.get(at as usize) {
                None => 0,
                Some(number) => *number
            };
            if flag_at(&begun.passed, at) {
                total = total.saturating_add(own);
            }
            let all = own.saturating_add(fewest_behind(&fewest, at, it.end));
            if at == begun.last {
                total = total.saturating_add(all);
            }
            if let Some(place) = fewest.get_mut(at as usize) {
                *place = all;
            }
        }
    }
    Ok(total)
}
