// What is known of registers as a block goes on, in the way in which the checker finds it.
use low_ir::Operand;
use pass_dataflow_facts::Form;
use pass_strength_sketches::acts::{Act, written};
use pass_strength_sketches::forms::{behind, negative, operated, word_in};
use pass_strength_sketches::words::Words;
use rv_core::Alu;
use std::alloc::Global;
use wcc_base::Memory;

/// What is known of a register: that it is a word, and maybe more. Forms are by what registers held as the block began, or when they
/// were last written but for steps.
#[derive(Clone, Copy)]
struct Known {
    visit: u64,
    /// How many instructions were before.
    at: u64,
    /// None where it is a word of which nothing else is known.
    form: Option<Form>,
    is_word: bool,
}

/// When a register was written, but for steps, and how much was added to it since.
#[derive(Clone, Copy)]
struct Written {
    visit: u64,
    at: u64,
    grown: u32,
}

/// Tables by register, which go from block to block, so that nothing has to be cleared.
#[derive(Drop)]
pub struct Knowing {
    known: Vec<Known>,
    written: Vec<Written>,
    visit: u64,
    at: u64,
}

fn is_register(operand: Operand, register: u32) -> bool {
    match operand {
        Operand::Register(other) => other == register,
        Operand::Constant(_) => false,
    }
}

impl Knowing {
    /// Tables for so many registers.
    pub fn new(alloc: Global, registers: u32) -> Result<Knowing, Memory> {
        let known = Known {
            visit: 0,
            at: 0,
            form: None,
            is_word: false,
        };
        let written = Written {
            visit: 0,
            at: 0,
            grown: 0,
        };
        Ok(Knowing {
            known: vec![in alloc; known; registers as usize]?,
            written: vec![in alloc; written; registers as usize]?,
            visit: 0,
            at: 0,
        })
    }

    /// A block begins with these registers and forms.
    pub fn begin(&mut self, registers: &[u32], forms: &[Option<Form>]) {
        self.visit = self.visit.wrapping_add(1);
        self.at = 0;
        for (number, register) in registers.iter().enumerate() {
            if let Some(form) = forms.get(number) {
                self.set_begun(*register, *form);
            }
        }
    }

    fn set_begun(&mut self, register: u32, form: Option<Form>) {
        match form {
            None => self.know(register, None, false),
            Some(form) => {
                if form.has(register) {
                    self.know(register, None, true);
                } else {
                    self.know(register, Some(form), true);
                }
            }
        }
    }

    fn know(&mut self, register: u32, form: Option<Form>, is_word: bool) {
        let visit = self.visit;
        let at = self.at;
        if let Some(known) = self.known.get_mut(register as usize) {
            *known = Known {
                visit,
                at,
                form,
                is_word,
            };
        }
    }

    /// What is known of a register in this block.
    fn known(&self, register: u32) -> Option<Known> {
        match self.known.get(register as usize) {
            None => None,
            Some(known) => {
                if known.visit == self.visit {
                    Some(*known)
                } else {
                    None
                }
            }
        }
    }

    fn grown(&self, register: u32) -> u32 {
        match self.written.get(register as usize) {
            None => 0,
            Some(written) => {
                if written.visit == self.visit {
                    written.grown
                } else {
                    0
                }
            }
        }
    }

    fn is_written_behind(&self, register: u32, at: u64) -> bool {
        match self.written.get(register as usize) {
            None => false,
            Some(written) => written.visit == self.visit && written.at > at,
        }
    }

    /// Whether the registers of a form hold what they held then, but for steps.
    fn lasts(&self, form: Form, at: u64) -> bool {
        for term in form.terms {
            if term.factor != 0 && self.is_written_behind(term.register, at) {
                return false;
            }
        }
        true
    }

    /// The form of a register, if one is known but that it is what it is.
    fn form_known(&self, register: u32) -> Option<Form> {
        let known = self.known(register)?;
        let form = known.form?;
        if self.lasts(form, known.at) {
            Some(form)
        } else {
            None
        }
    }

    fn form_at(&self, register: u32) -> Form {
        match self.form_known(register) {
            Some(form) => form,
            None => behind(register, self.grown(register)),
        }
    }

    fn form_of(&self, operand: Operand) -> Form {
        match operand {
            Operand::Constant(word) => Form::constant(word),
            Operand::Register(register) => self.form_at(register),
        }
    }

    fn is_word(&self, operand: Operand) -> bool {
        match operand {
            Operand::Constant(_) => true,
            Operand::Register(register) => match self.known(register) {
                None => false,
                Some(known) => known.is_word,
            },
        }
    }

    /// A register is written.
    fn write(&mut self, register: u32, form: Option<Form>, is_word: bool) {
        self.at = self.at.wrapping_add(1);
        let own = match form {
            None => None,
            Some(form) => { if form.has(register) { None } else { Some(form) } }
        };
        let visit = self.visit;
        let at = self.at;
        if let Some(written) = self.written.get_mut(register as usize) {
            *written = Written {
                visit,
                at,
                grown: 0,
            };
        }
        self.know(register, own, is_word);
    }

    /// A word is added to a register.
    fn grow(&mut self, register: u32, by: u32) {
        let form = match self.form_known(register) {
            None => None,
            Some(form) => Some(form.moved(by)),
        };
        let visit = self.visit;
        if let Some(written) = self.written.get_mut(register as usize) {
            if written.visit == visit {
                written.grown = written.grown.wrapping_add(by);
            } else {
                *written = Written {
                    visit,
                    at: 0,
                    grown: by,
                };
            }
        }
        let is_word = self.is_word(Operand::Register(register));
        self.know(register, form, is_word);
    }

    /// How much an instruction adds to the register that it writes, if that is known.
    fn step_of(&self, act: Act) -> Option<u32> {
        if let Act::Operate {
            operator,
            into,
            left,
            right,
        } = act
        {
            return match operator {
                Alu::Sum => {
                    if is_register(left, into) {
                        word_in(self.form_of(right))
                    } else if is_register(right, into) {
                        word_in(self.form_of(left))
                    } else {
                        None
                    }
                }
                Alu::Difference => {
                    if is_register(left, into) {
                        negative(right)
                    } else {
                        None
                    }
                }
                _ => None,
            };
        }
        None
    }

    fn operate(&mut self, words: &Words, act: Act) {
        if let Act::Operate {
            operator,
            into,
            left,
            right,
        } = act
        {
            match self.step_of(act) {
                Some(by) => self.grow(into, by),
                None => {
                    let a = self.form_of(left);
                    let b = self.form_of(right);
                    let form = operated(operator, a, b, right, words.is_small(right));
                    self.write(into, form, true);
                }
            }
        }
    }

    /// The block goes on by an instruction.
    pub fn pass(&mut self, words: &Words, act: Act) {
        let Some(into) = written(act) else {
            return;
        };
        match act {
            Act::Operate { .. } => self.operate(words, act),
            Act::Set { value, .. } => {
                let form = self.form_of(value);
                self.write(into, Some(form), self.is_word(value));
            }
            Act::Point { .. } => self.write(into, None, false),
            _ => self.write(into, None, true),
        }
    }

    /// What is known of a register here, by what registers hold now.
    pub fn now(&self, register: u32) -> Option<Form> {
        if !self.is_word(Operand::Register(register)) {
            return None;
        }
        let mut form = match self.form_known(register) {
            None => return Some(behind(register, 0)),
            Some(form) => form,
        };
        for term in form.terms {
            let less = term.factor.wrapping_mul(self.grown(term.register));
            form = form.moved(0u32.wrapping_sub(less));
        }
        Some(form)
    }
}
