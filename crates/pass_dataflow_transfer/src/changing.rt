// What becomes of facts as registers are written.
ghost use Rattle.std.specs.Prelude.{◌≡◌, ◌+◌, ◌*◌, true, slice_set};
ghost use Rattle.std.specs.List.{AllZip};
ghost use Rattle.low_ir.specs.Runs.{Bank};
ghost use Rattle.pass_dataflow_facts.specs.Facts.{is_true};
ghost use Rattle.pass_dataflow_facts.specs.Forms.{Same};
ghost use Rattle.pass_dataflow_transfer.specs.Learning.{Steps, Survives, Writes};

use pass_dataflow_facts::{Fact, Form, Origin};

/// That a register holds something.
pub fn nothing_of(register: u32) -> Fact
    ensures { (s : Bank) → is_true s result ≡ true }
{
    let form = Form::register(register);
    Fact {
        register,
        origin: Origin::Any,
        form,
    }
}

/// What is left of a fact once a register was written.
fn survivor(fact: Fact, register: u32) -> Fact
    ensures { Survives register fact result }
{
    if fact.register == register {
        return nothing_of(register);
    }
    if !fact.form.has(register) {
        return fact;
    }
    let form = Form::register(fact.register);
    Fact {
        register: fact.register,
        origin: fact.origin,
        form,
    }
}

/// What makes nothing with a word.
pub fn negated(word: u32) -> u32
    ensures { Same (result + word) 0 }
{
    0u32.wrapping_sub(word)
}

/// What is to be added for a step, so that nothing is changed by both.
fn opposite(factor: u32, by: u32) -> u32
    ensures { Same (result + factor * by) 0 }
{
    negated(factor.wrapping_mul(by))
}

/// What becomes of a fact as a register is stepped.
fn after_step(fact: Fact, register: u32, by: u32) -> Fact
    ensures { Steps register by fact result }
{
    let left = fact.form.moved(opposite(fact.form.factor(register), by));
    if fact.register == register {
        let form = left.moved(by);
        return Fact {
            register: fact.register,
            origin: fact.origin,
            form,
        };
    }
    Fact {
        register: fact.register,
        origin: fact.origin,
        form: left,
    }
}

/// What is known of a register as it is written.
pub fn written(register: u32, origin: Origin, form: Option<Form>) -> Fact
    ensures { Writes register origin form result }
{
    let own = Form::register(register);
    match form {
        None => Fact {
            register,
            origin,
            form: own,
        },
        Some(form) => {
            if form.has(register) {
                Fact {
                    register,
                    origin,
                    form: own,
                }
            } else {
                Fact {
                    register,
                    origin,
                    form,
                }
            }
        }
    }
}

pub fn set_fact(facts: &mut Vec<Fact>, at: usize, new: Fact)
    ensures { facts.new.items ≡ slice_set facts.old.items at new }
{
    if let Some(fact) = facts.get_mut(at) {
        *fact = new;
    }
}

/// A register was written.
pub fn forget(facts: &mut Vec<Fact>, register: u32)
    ensures { AllZip (Survives register) facts.old.items facts.new.items }
{
    for at in 0..facts.len() {
        let new = survivor(facts[at], register);
        set_fact(facts, at, new);
    }
}

/// A register was stepped.
pub fn step(facts: &mut Vec<Fact>, register: u32, by: u32)
    ensures { AllZip (Steps register by) facts.old.items facts.new.items }
{
    for at in 0..facts.len() {
        let new = after_step(facts[at], register, by);
        set_fact(facts, at, new);
    }
}
