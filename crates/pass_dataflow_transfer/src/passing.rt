// What instructions teach.
ghost use Rattle.std.specs.Prelude.{◌≡◌, ◌%◌, ◌^◌, true, ℕ, List, IfSome};
ghost use Rattle.wcc_base.specs.Words.{left_shift_word};
ghost use Rattle.rv_core.specs.declared.row.Alu.TheVariants.{Difference, Product, ShiftLeft};
ghost use Rattle.low_ir.specs.Code.{Operate, Point, Register, Set};
ghost use Rattle.low_ir.specs.View.{address_of, base_of, instr_of, operand_of};
ghost use Rattle.pass_strength_reduction_law.specs.Knowing.{InstrTeaches};
ghost use Rattle.pass_dataflow_facts.specs.Facts.{all_true};
ghost use Rattle.pass_dataflow_transfer.specs.Learning.{BaseIsFrom, CallPasses, Gives, GivesFrom, GivesHere, IsAlways, IsBehind, LearnsWord, Leads, Passes, StepsBy, Sure};

use super::changing::negated;
use super::known::Known;
use super::reading::{form_held, form_of, holds_small, origin_held, origin_of};
use low_ir::{Address, Base, Instr, Operand};
use pass_dataflow_facts::{Fact, Form, Origin};
use rv_core::Alu;
use wcc_base::words::shift_left;

fn product(a: Form, b: Form, right: Operand) -> Option<Form>
    ensures { IfSome result (Gives Product a b (operand_of right)) }
{
    if b.is_constant() {
        return Form::constant(0).plus(b.constant, a);
    }
    if a.is_constant() {
        return Form::constant(0).plus(a.constant, b);
    }
    None
}

/// What a shift by a word multiplies by.
fn power(word: u32) -> u32
    ensures { result ≡ left_shift_word 1 (word % 2 ^ 32) }
{
    shift_left(1, word)
}

/// A number shifted by a word.
fn shifted(a: Form, b: Form, right: Operand) -> Option<Form>
    ensures { IfSome result (Gives ShiftLeft a b (operand_of right)) }
{
    match right {
        Operand::Register(_) => None,
        Operand::Constant(word) => Form::constant(0).plus(power(word), a),
    }
}

fn is_difference(operator: Alu) -> bool
    ensures { result ≡ true → operator ≡ Difference }
{
    match operator {
        Alu::Difference => true,
        _ => false,
    }
}

/// What an operation gives.
fn found(facts: &[Fact], operator: Alu, left: Operand, right: Operand) -> Option<Form>
    ensures { IfSome result (λ f. Sure facts.now (GivesHere operator (operand_of left) (operand_of right) f)) }
{
    let a = form_held(facts, left);
    let b = form_held(facts, right);
    if is_difference(operator) && holds_small(facts, right) {
        return a.plus(u32::MAX, b);
    }
    given(operator, a, b, right)
}

/// Which words an operator gives.
fn origin_given(operator: Alu) -> Origin
    ensures { GivesFrom operator result }
{
    match operator {
        Alu::Sum => Origin::Small,
        Alu::Difference => Origin::Small,
        Alu::Product => Origin::Small,
        Alu::ShiftLeft => Origin::Small,
        _ => Origin::Word,
    }
}

/// What an operator gives.
fn given(operator: Alu, a: Form, b: Form, right: Operand) -> Option<Form>
    ensures { IfSome result (Gives operator a b (operand_of right)) }
{
    match operator {
        Alu::Sum => a.plus(1, b),
        Alu::Product => product(a, b, right),
        Alu::ShiftLeft => shifted(a, b, right),
        _ => None,
    }
}

fn is_register(operand: Operand, register: u32) -> bool
    ensures { result ≡ true → operand_of operand ≡ Register register }
{
    match operand {
        Operand::Register(other) => other == register,
        Operand::Constant(_) => false,
    }
}

/// The word that an operand holds, if it is known.
fn constant_of(facts: &[Fact], operand: Operand) -> Option<u32>
    ensures { IfSome result (λ c. Sure facts.now (IsAlways (operand_of operand) c)) }
{
    let form = form_held(facts, operand);
    if form.is_constant() {
        Some(form.constant)
    } else {
        None
    }
}

/// By how much an operation steps the register that it writes.
fn step_of(facts: &[Fact], operator: Alu, into: u32, left: Operand, right: Operand) -> Option<u32>
    ensures { IfSome result (λ by. Sure facts.now (StepsBy operator into (operand_of left) (operand_of right) by)) }
{
    match operator {
        Alu::Sum => {
            if is_register(left, into) {
                constant_of(facts, right)
            } else if is_register(right, into) {
                constant_of(facts, left)
            } else {
                None
            }
        }
        Alu::Difference => match right {
            Operand::Register(_) => None,
            Operand::Constant(word) => {
                if is_register(left, into) {
                    Some(negated(word))
                } else {
                    None
                }
            }
        },
        _ => None,
    }
}

fn pass_set(known: &mut Known, size: u32, into: u32, value: Operand)
    ensures { Passes size (Set into (operand_of value)) known.old.facts.items known.new.facts.items }
{
    let origin = origin_held(&known.facts, value);
    let form = form_held(&known.facts, value);
    known.write(size, into, origin, Some(form));
}

/// An operation, and how many registers there are.
#[derive(Clone, Copy)]
struct Operation {
    operator: Alu,
    into: u32,
    left: Operand,
    right: Operand,
}

fn pass_operate(known: &mut Known, size: u32, it: Operation)
    ensures { Passes size (Operate it.operator it.into (operand_of it.left) (operand_of it.right)) known.old.facts.items known.new.facts.items }
{
    match step_of(&known.facts, it.operator, it.into, it.left, it.right) {
        Some(by) => known.step(it.into, by),
        None => {
            let form = found(&known.facts, it.operator, it.left, it.right);
            known.write(size, it.into, origin_given(it.operator), form);
        }
    }
}

/// Some word comes to a register.
fn pass_word(known: &mut Known, size: u32, into: u32)
    ensures { LearnsWord size into known.old.facts.items known.new.facts.items }
{
    known.write(size, into, Origin::Word, None);
}

/// Where an address begins.
pub fn base_origin(facts: &[Fact], base: Base) -> Origin
    ensures { Sure facts.now (BaseIsFrom (base_of base) result) }
{
    match base {
        Base::Object(object) => Origin::Object(object),
        Base::Pointer { register, .. } => origin_of(facts, register),
    }
}

/// So many bytes behind the first of its array an address leads.
pub fn form_there(facts: &[Fact], address: Address) -> Option<Form>
    ensures { IfSome result (λ f. Sure facts.now (Leads (address_of address) f)) }
{
    match address.base {
        Base::Object(_) => match address.offset {
            None => Some(Form::constant(address.displacement)),
            Some(offset) => Some(form_of(facts, offset).moved(address.displacement)),
        },
        Base::Pointer { register, .. } => match address.offset {
            None => Some(form_of(facts, register).moved(address.displacement)),
            Some(offset) => form_of(facts, register)
                .moved(address.displacement)
                .plus(1, form_of(facts, offset)),
        },
    }
}

/// Whether an address is that of the register itself, but for the displacement.
fn is_behind(address: Address, register: u32) -> bool
    ensures { result ≡ true → IsBehind (address_of address) register }
{
    match address.base {
        Base::Object(_) => false,
        Base::Pointer {
            register: pointer,
            ..
        } => match address.offset {
            None => pointer == register,
            Some(_) => false,
        },
    }
}

fn pass_point(known: &mut Known, size: u32, into: u32, address: Address)
    ensures { Passes size (Point into (address_of address)) known.old.facts.items known.new.facts.items }
{
    if is_behind(address, into) {
        known.step(into, address.displacement);
    } else {
        let origin = base_origin(&known.facts, address.base);
        let form = form_there(&known.facts, address);
        known.write(size, into, origin, form);
    }
}

fn pass_call(known: &mut Known, size: u32, into: Option<u32>)
    ensures { CallPasses size into known.old.facts.items known.new.facts.items }
{
    match into {
        None => {}
        Some(register) => pass_word(known, size, register),
    }
}

impl Known {
    /// An instruction of a function with so many registers was executed.
    pub fn pass(&mut self, size: u32, instr: &Instr)
        ensures { (claims : List (List ℕ)) → InstrTeaches size claims (instr_of instr.now) (all_true self.old.facts.items) (all_true self.new.facts.items) }
    {
        match instr {
            Instr::Set { into, value } => pass_set(self, size, *into, *value),
            Instr::Operate {
                operator,
                into,
                left,
                right,
            } => pass_operate(
                self,
                size,
                Operation {
                    operator: *operator,
                    into: *into,
                    left: *left,
                    right: *right,
                },
            ),
            Instr::Point { into, address } => pass_point(self, size, *into, *address),
            Instr::Load { into, .. } => pass_word(self, size, *into),
            Instr::Store { .. } => {}
            Instr::Put { .. } => {}
            Instr::Get { into } => pass_word(self, size, *into),
            Instr::Call { into, .. } => pass_call(self, size, *into),
        }
    }
}
