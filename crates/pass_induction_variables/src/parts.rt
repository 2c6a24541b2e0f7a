// What registers are in a loop, and what they hold as a block of it goes on.
use low_ir::Operand;
use pass_dataflow_facts::Form;
use pass_strength_sketches::acts::{Act, written};
use pass_strength_sketches::forms::{behind, negative, operated};
use pass_strength_sketches::tables::{number_at, set_number};
use pass_strength_sketches::words::Words;
use rv_core::Alu;
use std::alloc::Global;
use wcc_base::Memory;

/// What a register is in a loop.
#[derive(Clone, Copy)]
pub enum Part {
    /// It isn't written.
    Stays,
    /// An induction variable: words alone are added to it.
    Steps,
    Other,
}

/// What a register was set to, by what others held as the block began.
#[derive(Clone, Copy)]
struct Held {
    visit: u64,
    form: Option<Form>,
}

/// How much was added to a register.
#[derive(Clone, Copy)]
pub struct Step {
    visit: u64,
    pub register: u32,
    pub by: u32,
}

/// Tables by register, which go from block to block and from loop to loop, so that nothing has to be cleared.
#[derive(Drop)]
pub struct Parts {
    parts: Vec<Part>,
    /// By register, its place among those of which forms are kept from block to block.
    ranks: Vec<Option<usize>>,
    held: Vec<Held>,
    steps: Vec<Step>,
    visit: u64,
    /// The registers that the loop writes, so many at the beginning of the list.
    touched: Vec<u32>,
    writes: usize,
    /// Those that the block has stepped.
    stepped: Vec<u32>,
    moves: usize,
}

fn part_at(parts: &[Part], register: u32) -> Part {
    match parts.get(register as usize) {
        None => Part::Other,
        Some(part) => *part,
    }
}

fn is_register(operand: Operand, register: u32) -> bool {
    match operand {
        Operand::Register(other) => other == register,
        Operand::Constant(_) => false,
    }
}

/// How much an instruction adds to the register that it writes, if it is a word.
pub fn step_of(words: &Words, act: Act) -> Option<u32> {
    match act {
        Act::Operate {
            operator: Alu::Sum,
            into,
            left,
            right,
        } => {
            if is_register(left, into) {
                words.word_of(right)
            } else if is_register(right, into) {
                words.word_of(left)
            } else {
                None
            }
        }
        Act::Operate {
            operator: Alu::Difference,
            into,
            left,
            right,
        } => {
            if is_register(left, into) {
                negative(right)
            } else {
                None
            }
        }
        _ => None,
    }
}

impl Parts {
    /// Tables for so many registers, of which none is written.
    pub fn new(alloc: Global, registers: u32) -> Result<Parts, Memory> {
        let registers = registers as usize;
        let held = Held {
            visit: 0,
            form: None,
        };
        let step = Step {
            visit: 0,
            register: 0,
            by: 0,
        };
        Ok(Parts {
            parts: vec![in alloc; Part::Stays; registers]?,
            ranks: vec![in alloc; None; registers]?,
            held: vec![in alloc; held; registers]?,
            steps: vec![in alloc; step; registers]?,
            visit: 0,
            touched: vec![in alloc; 0u32; registers]?,
            writes: 0,
            stepped: vec![in alloc; 0u32; registers]?,
            moves: 0,
        })
    }

    fn touch(&mut self, register: u32) {
        if let Part::Stays = part_at(&self.parts, register) {
            set_number(&mut self.touched, self.writes, register);
            self.writes = self.writes.wrapping_add(1);
        }
    }

    /// An instruction of the loop writes.
    pub fn note(&mut self, words: &Words, act: Act) {
        if let Some(into) = written(act) {
            self.touch(into);
            let steps = step_of(words, act).is_some() && words.is_word(into);
            let new = if steps && !self.is_other(into) {
                Part::Steps
            } else {
                Part::Other
            };
            if let Some(part) = self.parts.get_mut(into as usize) {
                *part = new;
            }
        }
    }

    /// Nothing is written any more.
    pub fn leave(&mut self) {
        for at in 0..self.writes {
            let register = number_at(&self.touched, at) as usize;
            if let Some(part) = self.parts.get_mut(register) {
                *part = Part::Stays;
            }
            if let Some(rank) = self.ranks.get_mut(register) {
                *rank = None;
            }
        }
        self.writes = 0;
    }

    pub fn is_other(&self, register: u32) -> bool {
        match part_at(&self.parts, register) {
            Part::Other => true,
            _ => false,
        }
    }

    pub fn is_step(&self, register: u32) -> bool {
        match part_at(&self.parts, register) {
            Part::Steps => true,
            _ => false,
        }
    }

    pub fn rank(&self, register: u32) -> Option<usize> {
        match self.ranks.get(register as usize) {
            None => None,
            Some(rank) => *rank,
        }
    }

    pub fn set_rank(&mut self, register: u32, new: usize) {
        if let Some(rank) = self.ranks.get_mut(register as usize) {
            *rank = Some(new);
        }
    }

    /// A block begins.
    pub fn begin(&mut self) {
        self.visit = self.visit.wrapping_add(1);
        self.moves = 0;
    }

    /// How much the block has added to a register.
    pub fn grown(&self, register: u32) -> u32 {
        match self.steps.get(register as usize) {
            None => 0,
            Some(step) => { if step.visit == self.visit { step.by } else { 0 } }
        }
    }

    fn has_grown(&self, register: u32) -> bool {
        match self.steps.get(register as usize) {
            None => true,
            Some(step) => step.visit == self.visit,
        }
    }

    fn grow(&mut self, register: u32, by: u32) {
        if !self.has_grown(register) {
            set_number(&mut self.stepped, self.moves, register);
            self.moves = self.moves.wrapping_add(1);
        }
        let by = self.grown(register).wrapping_add(by);
        let visit = self.visit;
        if let Some(step) = self.steps.get_mut(register as usize) {
            *step = Step {
                visit,
                register,
                by,
            };
        }
    }

    /// What the block has stepped.
    pub fn all_steps(&self, alloc: Global) -> Result<Vec<Step>, Memory> {
        let mut all = Vec::new(alloc);
        for at in 0..self.moves {
            if let Some(step) = self.steps.get(number_at(&self.stepped, at) as usize) {
                all.push(*step)?;
            }
        }
        Ok(all)
    }

    /// What one of the others holds, by forms as the block began.
    pub fn other(&self, begun: &[Option<Form>], register: u32) -> Option<Form> {
        if let Some(held) = self.held.get(register as usize) {
            if held.visit == self.visit {
                return held.form;
            }
        }
        match begun.get(self.rank(register)?) {
            None => None,
            Some(form) => *form,
        }
    }

    /// What a register holds, by what registers held as the block began.
    pub fn form_at(&self, words: &Words, begun: &[Option<Form>], register: u32) -> Option<Form> {
        if let Some(word) = words.constant(register) {
            return Some(Form::constant(word));
        }
        if self.is_other(register) {
            self.other(begun, register)
        } else if words.is_word(register) {
            Some(behind(register, self.grown(register)))
        } else {
            None
        }
    }

    fn form_of(&self, words: &Words, begun: &[Option<Form>], operand: Operand) -> Option<Form> {
        match operand {
            Operand::Constant(word) => Some(Form::constant(word)),
            Operand::Register(register) => self.form_at(words, begun, register),
        }
    }

    fn value_of(&self, words: &Words, begun: &[Option<Form>], act: Act) -> Option<Form> {
        match act {
            Act::Set { value, .. } => self.form_of(words, begun, value),
            Act::Operate {
                operator,
                left,
                right,
                ..
            } => {
                let a = self.form_of(words, begun, left)?;
                let b = self.form_of(words, begun, right)?;
                operated(operator, a, b, right, words.is_small(right))
            }
            _ => None,
        }
    }

    fn hold(&mut self, register: u32, form: Option<Form>) {
        let visit = self.visit;
        if let Some(held) = self.held.get_mut(register as usize) {
            *held = Held { visit, form };
        }
    }

    /// The block goes on by an instruction.
    pub fn pass(&mut self, words: &Words, begun: &[Option<Form>], act: Act) {
        if let Some(into) = written(act) {
            if self.is_step(into) {
                if let Some(by) = step_of(words, act) {
                    self.grow(into, by);
                }
            } else {
                let form = self.value_of(words, begun, act);
                self.hold(into, form);
            }
        }
    }

    /// A form by what registers hold now.
    pub fn now(&self, form: Form) -> Form {
        let mut made = form;
        for term in form.terms {
            let less = term.factor.wrapping_mul(self.grown(term.register));
            made = made.moved(0u32.wrapping_sub(less));
        }
        made
    }
}

/// How much a form grows by steps.
pub fn growth_of(form: Form, steps: &[Step]) -> u32 {
    let mut all = 0u32;
    for step in steps {
        all = all.wrapping_add(form.factor(step.register).wrapping_mul(step.by));
    }
    all
}
