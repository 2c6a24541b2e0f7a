// Instructions, one after another.
ghost use Rattle.std.specs.Prelude.{◌≡◌, ◌++◌, IfOk, suc};
ghost use Rattle.low_ir.specs.View.{instr_of};
ghost use Rattle.lower_coder.specs.declared.coder.Few.TheVariants.{Lone, Two};
ghost use Rattle.lower_coder.specs.View.{coded_of, few_code, few_needs, more};
ghost use Rattle.lower_definition.specs.Operators.{only};
ghost use Rattle.lower_definition.specs.Statements.{nothing};

use super::numbers::sum;
use low_ir::Instr;
use std::alloc::Global;
use wcc_base::Memory;

/// Instructions that are made one after another, and the next free register behind theirs.
#[derive(Drop)]
pub struct Coder {
    pub code: Vec<Instr>,
    pub free: u32,
}

/// What an operator becomes: an instruction, or several that pass a value in a register of their own.
#[derive(Drop)]
pub enum Few {
    One(Instr),
    Two(Instr, Instr),
    /// One that leaves the register unused.
    Lone(Instr),
    Four(Instr, Instr, Instr, Instr),
}

impl Coder {
    /// No instruction yet.
    pub fn new(alloc: Global, free: u32) -> Coder
        ensures { coded_of result ≡ nothing free }
    {
        Coder {
            code: Vec::new(alloc),
            free,
        }
    }

    /// One instruction more.
    pub fn push(&mut self, instr: Instr) -> Result<(), Memory>
        ensures { IfOk result (λ _. coded_of self.new ≡ record { code = (coded_of self.old).code ++ only (instr_of instr); free = self.old.free }) }
    {
        self.code.push(instr)?;
        Ok(())
    }

    /// Takes a register.
    pub fn fresh(&mut self) -> Result<u32, Memory>
        ensures register { IfOk result (λ r. r ≡ self.old.free) }
        ensures after { IfOk result (λ _. coded_of self.new ≡ record { code = (coded_of self.old).code; free = suc self.old.free }) }
    {
        let register = self.free;
        self.free = sum(register, 1)?;
        Ok(register)
    }

    /// The instructions of an operator.
    pub fn emit(&mut self, few: Few) -> Result<(), Memory>
        ensures { IfOk result (λ _. coded_of self.new ≡ more (coded_of self.old) (few_code few) (few_needs few)) }
    {
        match few {
            Few::One(instr) => self.push(instr),
            Few::Two(first, second) => self.push_both(first, second),
            Few::Lone(instr) => self.push_lone(instr),
            Few::Four(first, second, third, last) => match self.push_pair(first, second) {
                Ok(()) => self.push_both(third, last),
                Err(memory) => {
                    drop(third);
                    drop(last);
                    Err(memory)
                }
            },
        }
    }

    fn push_lone(&mut self, instr: Instr) -> Result<(), Memory>
        ensures { IfOk result (λ _. coded_of self.new ≡ more (coded_of self.old) (few_code (Lone instr)) 1) }
    {
        self.push(instr)?;
        self.fresh()?;
        Ok(())
    }

    fn push_pair(&mut self, first: Instr, second: Instr) -> Result<(), Memory>
        ensures { IfOk result (λ _. coded_of self.new ≡ more (coded_of self.old) (few_code (Two first second)) 0) }
    {
        match self.push(first) {
            Ok(()) => {}
            Err(memory) => {
                drop(second);
                return Err(memory);
            }
        }
        self.push(second)
    }

    fn push_both(&mut self, first: Instr, second: Instr) -> Result<(), Memory>
        ensures { IfOk result (λ _. coded_of self.new ≡ more (coded_of self.old) (few_code (Two first second)) 1) }
    {
        self.push_pair(first, second)?;
        self.fresh()?;
        Ok(())
    }
}
