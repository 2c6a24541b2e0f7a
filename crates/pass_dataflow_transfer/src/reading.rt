// What facts say together.
ghost use Rattle.std.specs.Prelude.{◌≡◌, ◌+◌, ◌*◌, true, IfSome, None, slice_index_or};
ghost use Rattle.low_ir.specs.Runs.{Bank};
ghost use Rattle.low_ir.specs.View.{operand_of};
ghost use Rattle.pass_dataflow_facts.specs.Facts.{is_from, is_true, number_in};
ghost use Rattle.pass_dataflow_facts.specs.Forms.{Numbers, Same, form_value};
ghost use Rattle.pass_dataflow_transfer.specs.Learning.{Comes, Counts, HoldsSmall, HoldsWord, Measures, Sure};

use low_ir::Operand;
use pass_dataflow_facts::{Fact, Form, Origin, Term};

/// What a fact says that a register holds.
fn origin_told(fact: Fact, register: u32) -> Option<Origin>
    ensures { IfSome result (λ o. (s : Bank) → is_true s fact ≡ true → is_from o (slice_index_or s register None) ≡ true) }
{
    if fact.register != register {
        return None;
    }
    match fact.origin {
        Origin::Any => None,
        origin => Some(origin),
    }
}

/// What a register holds.
pub fn origin_of(facts: &[Fact], register: u32) -> Origin
    ensures { Sure facts.now (λ s. is_from result (slice_index_or s register None) ≡ true) }
{
    for fact in facts {
        if let Some(origin) = origin_told(*fact, register) {
            return origin;
        }
    }
    Origin::Any
}

/// What a fact says that the number of a register is, by other registers.
fn form_told(fact: Fact, register: u32) -> Option<Form>
    ensures { IfSome result (λ f. (s : Bank) → is_true s fact ≡ true → Measures s (number_in s register) f) }
{
    if fact.register == register && !fact.form.has(register) {
        Some(fact.form)
    } else {
        None
    }
}

/// What the number of a register is.
pub fn form_of(facts: &[Fact], register: u32) -> Form
    ensures { Sure facts.now (λ s. Measures s (number_in s register) result) }
{
    for fact in facts {
        if let Some(form) = form_told(*fact, register) {
            return form;
        }
    }
    Form::register(register)
}

/// What an operand holds.
pub fn origin_held(facts: &[Fact], operand: Operand) -> Origin
    ensures { Sure facts.now (Comes (operand_of operand) result) }
{
    match operand {
        Operand::Register(register) => origin_of(facts, register),
        Operand::Constant(_) => Origin::Small,
    }
}

/// The number of what an operand holds.
pub fn form_held(facts: &[Fact], operand: Operand) -> Form
    ensures { Sure facts.now (Counts (operand_of operand) result) }
{
    match operand {
        Operand::Register(register) => form_of(facts, register),
        Operand::Constant(word) => Form::constant(word),
    }
}

/// Whether an operand surely holds a word.
pub fn holds_word(facts: &[Fact], operand: Operand) -> bool
    ensures { result ≡ true → Sure facts.now (HoldsWord (operand_of operand)) }
{
    match operand {
        Operand::Register(register) => match origin_of(facts, register) {
            Origin::Word => true,
            Origin::Small => true,
            _ => false,
        },
        Operand::Constant(_) => true,
    }
}

/// Whether it surely holds a word below 2^32.
pub fn holds_small(facts: &[Fact], operand: Operand) -> bool
    ensures { result ≡ true → Sure facts.now (HoldsSmall (operand_of operand)) }
{
    match operand {
        Operand::Register(register) => match origin_of(facts, register) {
            Origin::Small => true,
            _ => false,
        },
        Operand::Constant(_) => true,
    }
}

/// A term more, with what its register is in its place.
fn with_term(facts: &[Fact], all: Form, term: Term) -> Option<Form>
    ensures { IfSome result (λ f. Sure facts.now (λ s. Same (form_value (number_in s) f) (form_value (number_in s) all + term.factor * number_in s term.register))) }
{
    if term.factor == 0 {
        return Some(all);
    }
    all.plus(term.factor, form_of(facts, term.register))
}

/// A form, with what registers are in their place, if there is room for it.
fn in_place(facts: &[Fact], form: Form) -> Option<Form>
    ensures { IfSome result (λ f. Sure facts.now (λ s. Same (form_value (number_in s) f) (form_value (number_in s) form))) }
{
    let mut all = Form::constant(form.constant);
    for term in form.terms {
        match with_term(facts, all, term) {
            None => return None,
            Some(more) => all = more,
        }
    }
    Some(all)
}

fn is_zero(form: Form) -> bool
    ensures { result ≡ true → (v : Numbers) → form_value v form ≡ 0 }
{
    form.constant == 0 && form.is_constant()
}

/// How often registers are put in place.
const ROUNDS: u32 = 3;

/// Whether a form is surely 0.
fn vanishes(facts: &[Fact], form: Form) -> bool
    ensures { result ≡ true → Sure facts.now (λ s. Measures s 0 form) }
{
    let mut now = form;
    for _ in 0..ROUNDS {
        if is_zero(now) {
            return true;
        }
        match in_place(facts, now) {
            None => return false,
            Some(next) => now = next,
        }
    }
    is_zero(now)
}

/// Whether two forms are surely the same.
pub fn agree(facts: &[Fact], a: Form, b: Form) -> bool
    ensures { result ≡ true → Sure facts.now (λ s. Measures s (form_value (number_in s) a) b) }
{
    let Some(left) = in_place(facts, a) else {
        return false;
    };
    let Some(right) = in_place(facts, b) else {
        return false;
    };
    match left.plus(u32::MAX, right) {
        None => false,
        Some(difference) => vanishes(facts, difference),
    }
}
