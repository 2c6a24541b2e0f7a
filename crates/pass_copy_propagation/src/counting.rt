// On which registers blocks count at their beginning. Nothing is proved of it: where one is missing, the program stays as it is.
use super::reading::{Reader, read_end, read_instr};
use super::renaming::only_written;
use low_ir::{Block, End, Function, Instr};
use low_parts::accesses::written;
use std::alloc::Global;
use wcc_base::Memory;

/// How many blocks count on a register at most that isn't taken for one that lasts.
const FEW: u8 = 8;

/// How often the blocks are gone through at most, so that what lives round loops is found.
const SWEEPS: u8 = 6;

/// On which registers the blocks of a function count at their beginning.
#[derive(Drop)]
pub struct Counted {
    /// By register, whether it lasts: all blocks may count on it.
    pub lasting: Vec<bool>,
    /// By block, on which others it counts.
    pub lists: Vec<Vec<u32>>,
}

/// What is found so far. Blocks are numbered from sweep to sweep, so that nothing has to be cleared for the next one.
#[derive(Drop)]
struct Finding {
    counted: Counted,
    /// By register, how many blocks count on it.
    blocks: Vec<u8>,
    /// By register, the last block that needed it where it was gone through.
    needed: Vec<u64>,
    /// The registers that the block needed somewhere.
    needs: Vec<u32>,
    /// By register, the last block that was found to count on it.
    found: Vec<u64>,
    /// The number of the block.
    number: u64,
    /// Its place in the function.
    block: usize,
    /// Whether what is found now is found too late.
    late: bool,
    /// Whether something was found.
    changed: bool,
}

fn is_at(flags: &[bool], register: u32) -> bool {
    match flags.get(register as usize) {
        None => true,
        Some(flag) => *flag,
    }
}

fn number_at(numbers: &[u64], register: u32) -> u64 {
    match numbers.get(register as usize) {
        None => 0,
        Some(number) => *number,
    }
}

fn set_number(numbers: &mut [u64], register: u32, new: u64) {
    if let Some(number) = numbers.get_mut(register as usize) {
        *number = new;
    }
}

/// The register at a place of a list of a block.
fn listed_at(lists: &[Vec<u32>], block: usize, at: usize) -> Option<u32> {
    match lists.get(block) {
        None => None,
        Some(list) => match list.get(at) {
            None => None,
            Some(register) => Some(*register),
        },
    }
}

fn length_at(lists: &[Vec<u32>], block: usize) -> usize {
    match lists.get(block) {
        None => 0,
        Some(list) => list.len(),
    }
}

fn put(lists: &mut [Vec<u32>], block: usize, register: u32) -> Result<(), Memory> {
    if let Some(list) = lists.get_mut(block) {
        list.push(register)?;
    }
    Ok(())
}

impl Reader for Finding {
    fn read(&mut self, register: u32) -> Result<(), Memory> {
        if self.is_needed(register) {
            return Ok(());
        }
        set_number(&mut self.needed, register, self.number);
        Ok(self.needs.push(register)?)
    }
}

impl Finding {
    fn new(alloc: Global, function: &Function) -> Result<Finding, Memory> {
        let registers = function.registers as usize;
        let mut lists = Vec::new(alloc);
        for _ in 0..function.blocks.len() {
            lists.push(Vec::new(alloc))?;
        }
        Ok(Finding {
            counted: Counted {
                lasting: vec![in alloc; false; registers]?,
                lists,
            },
            blocks: vec![in alloc; 0u8; registers]?,
            needed: vec![in alloc; 0u64; registers]?,
            needs: Vec::new(alloc),
            found: vec![in alloc; 0u64; registers]?,
            number: 0,
            block: 0,
            late: false,
            changed: false,
        })
    }

    /// A register lasts.
    fn lasts(&mut self, register: u32) {
        if let Some(lasting) = self.counted.lasting.get_mut(register as usize) {
            *lasting = true;
        }
    }

    /// Whether one block more may count on a register, which is noted.
    fn is_one_of_few(&mut self, register: u32) -> bool {
        match self.blocks.get_mut(register as usize) {
            None => false,
            Some(blocks) => {
                if *blocks >= FEW {
                    return false;
                }
                *blocks = blocks.wrapping_add(1);
                true
            }
        }
    }

    /// The block counts on a register.
    fn count_on(&mut self, register: u32) -> Result<(), Memory> {
        if is_at(&self.counted.lasting, register)
            || number_at(&self.found, register) == self.number
        {
            return Ok(());
        }
        set_number(&mut self.found, register, self.number);
        self.changed = true;
        if !self.late && self.is_one_of_few(register) {
            put(&mut self.counted.lists, self.block, register)
        } else {
            self.lasts(register);
            Ok(())
        }
    }

    /// A block begins, which counts on what it was found to count on before.
    fn open(&mut self, block: usize) {
        self.block = block;
        self.number = self.number.wrapping_add(1);
        if let Some(list) = self.counted.lists.get(block) {
            for register in list {
                set_number(&mut self.found, *register, self.number);
            }
        }
    }

    /// Whether the block needs a register where it is gone through.
    fn is_needed(&self, register: u32) -> bool {
        number_at(&self.needed, register) == self.number
    }

    /// Whether an instruction does nothing but write a register that isn't needed.
    fn is_unread(&self, instr: &Instr) -> bool {
        match only_written(instr) {
            None => false,
            Some(register) => {
                !self.late && !is_at(&self.counted.lasting, register) && !self.is_needed(register)
            }
        }
    }

    fn pass_instr(&mut self, instr: &Instr) -> Result<(), Memory> {
        if self.is_unread(instr) {
            return Ok(());
        }
        if let Some(register) = written(instr) {
            set_number(&mut self.needed, register, 0);
        }
        read_instr(self, instr)
    }

    /// The block counts on what it needs at its beginning.
    fn close(&mut self) -> Result<(), Memory> {
        for at in 0..self.needs.len() {
            if let Some(register) = self.needs.get(at) {
                let register = *register;
                if self.is_needed(register) {
                    self.count_on(register)?;
                }
            }
        }
        self.needs.clear();
        Ok(())
    }

    /// The block, its last instruction first.
    fn pass(&mut self, block: &Block) -> Result<(), Memory> {
        self.lead_on(block.end)?;
        read_end(self, block.end)?;
        for instr in block.code.iter().rev() {
            self.pass_instr(instr)?;
        }
        self.close()
    }

    /// What a block counts on to which the block leads, it needs at its end.
    fn lead_to(&mut self, block: u32) -> Result<(), Memory> {
        let block = block as usize;
        for at in 0..length_at(&self.counted.lists, block) {
            if let Some(register) = listed_at(&self.counted.lists, block, at) {
                self.read(register)?;
            }
        }
        Ok(())
    }

    fn lead_on(&mut self, end: End) -> Result<(), Memory> {
        match end {
            End::Jump { block } => self.lead_to(block),
            End::Branch { taken, other, .. } => {
                self.lead_to(taken)?;
                self.lead_to(other)
            }
            End::Return { .. } => Ok(()),
        }
    }

    /// The blocks, the last one first.
    fn sweep(&mut self, blocks: &[Block]) -> Result<(), Memory> {
        for at in (0..blocks.len()).rev() {
            if let Some(block) = blocks.get(at) {
                self.open(at);
                self.pass(block)?;
            }
        }
        Ok(())
    }
}

/// The registers of a list that don't last.
fn brief(alloc: Global, lasting: &[bool], list: &[u32]) -> Result<Vec<u32>, Memory> {
    let mut brief = Vec::new(alloc);
    for register in list {
        if !is_at(lasting, *register) {
            brief.push(*register)?;
        }
    }
    Ok(brief)
}

fn all_brief(alloc: Global, counted: &Counted) -> Result<Vec<Vec<u32>>, Memory> {
    let mut lists = Vec::new(alloc);
    for list in &counted.lists {
        lists.push(brief(alloc, &counted.lasting, list)?)?;
    }
    Ok(lists)
}

/// Goes through the blocks until nothing is found any more. What nothing needs reads nothing, but in a last sweep, where it isn't
/// known yet what is needed: there all is read, and what is found lasts.
fn find(finding: &mut Finding, blocks: &[Block]) -> Result<(), Memory> {
    for _ in 0..SWEEPS {
        finding.changed = false;
        finding.sweep(blocks)?;
        if !finding.changed {
            return Ok(());
        }
    }
    finding.late = true;
    finding.sweep(blocks)
}

/// On which registers the blocks of a function count.
pub fn counted_in(alloc: Global, function: &Function) -> Result<Counted, Memory> {
    let mut finding = Finding::new(alloc, function)?;
    find(&mut finding, &function.blocks)?;
    let Finding { counted, .. } = finding;
    let lists = all_brief(alloc, &counted)?;
    let Counted { lasting, .. } = counted;
    Ok(Counted { lasting, lists })
}
