// A function as it is to become.
use super::acts::{Act, act_of, address_of, arguments_of, read_by, with_address, written};
use super::tables::{flag_at, set_flag};
use low_ir::{Address, Base, Block, End, Function, Operand};
use low_parts::accesses::same_operand;
use pass_dataflow_facts::Form;
use rv_core::Alu;
use std::alloc::Global;
use wcc_base::Memory;

/// How many instructions are looked at for one that gives the same.
const BACK: usize = 32;

/// Of how many instructions some are left out.
const PLACED: usize = 400;

/// An instruction.
#[derive(Clone, Copy)]
pub struct Line {
    pub act: Act,
    /// The register by which an access found its address that goes through a pointer now.
    pub served: Option<u32>,
    /// Whether nothing needs what it writes.
    pub dead: bool,
}

/// A block: the instructions that the function has, and behind them those that are to come.
#[derive(Drop)]
pub struct Draft {
    pub lines: Vec<Line>,
    /// How many the function has.
    pub own: usize,
    pub end: End,
    /// Registers that are in the forms of pointers which are set here.
    pub entered: Vec<u32>,
}

/// A pointer that steps with the registers of its form through a loop.
#[derive(Drop)]
pub struct Pointer {
    pub register: u32,
    pub object: u32,
    /// How many bytes behind the first of its array it is to be.
    pub form: Form,
    /// The first block of its loop.
    pub header: usize,
    /// By block of the loop, how many bytes less it is as the block begins.
    pub lags: Vec<u32>,
}

#[derive(Drop)]
pub struct Sketch {
    pub drafts: Vec<Draft>,
    pub pointers: Vec<Pointer>,
    /// Registers that nothing names.
    pub spare: Vec<u32>,
}

/// An instruction as it stands.
pub fn plain(act: Act) -> Line {
    Line {
        act,
        served: None,
        dead: false,
    }
}

fn draft_of(alloc: Global, block: &Block) -> Result<Draft, Memory> {
    let mut lines = Vec::new(alloc);
    for instr in &block.code {
        lines.push(plain(act_of(instr)))?;
    }
    Ok(Draft {
        lines,
        own: block.code.len(),
        end: block.end,
        entered: Vec::new(alloc),
    })
}

/// A function as it is.
pub fn sketch_of(alloc: Global, function: &Function, spare: &[bool]) -> Result<Sketch, Memory> {
    let mut drafts = Vec::new(alloc);
    for block in &function.blocks {
        drafts.push(draft_of(alloc, block)?)?;
    }
    let mut registers = Vec::new(alloc);
    for (register, is_spare) in spare.iter().enumerate() {
        if *is_spare {
            if let Ok(register) = u32::try_from(register) {
                registers.push(register)?;
            }
        }
    }
    Ok(Sketch {
        drafts,
        pointers: Vec::new(alloc),
        spare: registers,
    })
}

/// The lines of a block.
pub fn lines_of(drafts: &[Draft], block: usize) -> &[Line] {
    match drafts.get(block) {
        None => &[],
        Some(draft) => draft.lines.as_slice(),
    }
}

/// Where a block goes on to; one that isn't there returns.
pub fn end_of(drafts: &[Draft], block: usize) -> End {
    match drafts.get(block) {
        None => End::Return {
            value: Operand::Constant(0),
        },
        Some(draft) => draft.end,
    }
}

/// The arguments of the call that stands there in the function.
pub fn arguments_at(function: &Function, block: usize, at: usize) -> &[Operand] {
    match function.blocks.get(block) {
        None => &[],
        Some(it) => match it.code.get(at) {
            None => &[],
            Some(instr) => arguments_of(instr),
        },
    }
}

/// The address so many bytes behind where a register points to.
pub fn through(register: u32, claim: u32, displacement: u32) -> Address {
    Address {
        base: Base::Pointer { register, claim },
        offset: None,
        displacement,
    }
}

/// An access goes through a pointer.
fn serve(line: &mut Line, own: bool, new: Address) {
    let act = line.act;
    if own {
        line.served = match address_of(act) {
            None => None,
            Some(address) => address.offset,
        };
    }
    line.act = with_address(act, new);
}

impl Draft {
    /// The access at a place goes through a pointer.
    pub fn serve(&mut self, at: usize, new: Address) {
        let own = at < self.own;
        if let Some(line) = self.lines.get_mut(at) {
            serve(line, own, new);
        }
    }

    pub fn push(&mut self, act: Act) -> Result<(), Memory> {
        Ok(self.lines.push(plain(act))?)
    }

    /// A register that holds what an operation gives, by one of the last instructions that are to come.
    fn holding(&self, operator: Alu, left: Operand, right: Operand) -> Option<u32> {
        let count = self.lines.len();
        for back in 0..BACK {
            let at = count.wrapping_sub(back).wrapping_sub(1);
            if at < count && at >= self.own {
                if let Some(line) = self.lines.get(at) {
                    if let Some(register) = gives(line.act, operator, left, right) {
                        return Some(register);
                    }
                }
            }
        }
        None
    }

    /// By instruction, whether it stays: one that is to come and writes a register that no later one reads doesn't.
    fn staying(&self, alloc: Global) -> Result<Vec<bool>, Memory> {
        let count = self.lines.len();
        let mut stays = vec![in alloc; true; count]?;
        let mut read = Vec::new(alloc);
        for back in 0..count.saturating_sub(self.own) {
            let at = count.wrapping_sub(back).wrapping_sub(1);
            if let Some(line) = self.lines.get(at) {
                if is_unread(&read, line.act) {
                    set_flag(&mut stays, at, false);
                } else {
                    add_reads(&mut read, line.act)?;
                }
            }
        }
        Ok(stays)
    }

    fn tidy(&mut self, alloc: Global, spare: &mut Vec<u32>) -> Result<(), Memory> {
        if self.lines.len().saturating_sub(self.own) > PLACED {
            return Ok(());
        }
        let stays = self.staying(alloc)?;
        let mut lines = Vec::new(alloc);
        for (at, line) in self.lines.iter().enumerate() {
            if flag_at(&stays, at) {
                lines.push(*line)?;
            } else if let Some(register) = written(line.act) {
                spare.push(register)?;
            }
        }
        self.lines = lines;
        Ok(())
    }
}

/// Whether it is one of the three that set pointers.
fn is_like(a: Alu, b: Alu) -> bool {
    match a {
        Alu::Sum => match b {
            Alu::Sum => true,
            _ => false,
        },
        Alu::ShiftLeft => match b {
            Alu::ShiftLeft => true,
            _ => false,
        },
        Alu::Product => match b {
            Alu::Product => true,
            _ => false,
        },
        _ => false,
    }
}

/// The register that an instruction sets to what an operation gives.
fn gives(act: Act, wanted: Alu, a: Operand, b: Operand) -> Option<u32> {
    if let Act::Operate {
        operator,
        into,
        left,
        right,
    } = act
    {
        if is_like(operator, wanted) && same_operand(left, a) && same_operand(right, b) {
            return Some(into);
        }
    }
    None
}

fn add_reads(read: &mut Vec<u32>, act: Act) -> Result<(), Memory> {
    for register in read_by(act) {
        if let Some(register) = register {
            read.push(register)?;
        }
    }
    Ok(())
}

/// Whether an operation writes a register that isn't read.
fn is_unread(read: &[u32], act: Act) -> bool {
    if let Act::Operate { into, .. } = act {
        for register in read {
            if *register == into {
                return false;
            }
        }
        return true;
    }
    false
}

impl Sketch {
    pub fn serve(&mut self, block: usize, at: usize, new: Address) {
        if let Some(draft) = self.drafts.get_mut(block) {
            draft.serve(at, new);
        }
    }

    /// One more instruction at the end of a block.
    pub fn push(&mut self, block: usize, act: Act) -> Result<(), Memory> {
        match self.drafts.get_mut(block) {
            None => Ok(()),
            Some(draft) => draft.push(act),
        }
    }

    /// A register that holds what an operation gives at the end of a block, if there is one.
    pub fn operate(
        &mut self,
        block: usize,
        operator: Alu,
        left: Operand,
        right: Operand,
    ) -> Result<Option<u32>, Memory> {
        if let Some(draft) = self.drafts.get(block) {
            if let Some(register) = draft.holding(operator, left, right) {
                return Ok(Some(register));
            }
        }
        let Some(into) = self.fresh() else {
            return Ok(None);
        };
        self.push(
            block,
            Act::Operate {
                operator,
                into,
                left,
                right,
            },
        )?;
        Ok(Some(into))
    }

    /// Leaves operations out that were to set pointers which are set otherwise by now.
    pub fn tidy(&mut self, alloc: Global) -> Result<(), Memory> {
        for draft in &mut self.drafts {
            if draft.lines.len() > draft.own {
                draft.tidy(alloc, &mut self.spare)?;
            }
        }
        Ok(())
    }

    /// A register that nothing names yet.
    pub fn fresh(&mut self) -> Option<u32> {
        self.spare.pop()
    }
}

/// Whether one of the registers is the one that an instruction writes.
pub fn writes(act: Act, register: u32) -> bool {
    match written(act) {
        None => false,
        Some(into) => into == register,
    }
}
