// What is known as blocks end.
ghost use Rattle.std.specs.Prelude.{◌≡◌, ℕ, Option, true};
ghost use Rattle.low_ir.specs.declared.run.Value.{Value};
ghost use Rattle.low_ir.specs.Formed.{LeadsOn};
ghost use Rattle.low_ir.specs.View.{end_of};
ghost use Rattle.pass_dataflow_facts.specs.Facts.{all_true, is_from, is_true};
ghost use Rattle.pass_dataflow_transfer.specs.Learning.{Sure};
ghost use Rattle.pass_strength_reduction.specs.Scenes.{facts_at};

use low_ir::End;
use pass_dataflow_facts::{Change, Fact, Form, Origin};
use pass_dataflow_transfer::reading::{agree, origin_of};

/// Whether what is of one origin is of another one.
#[tactic(auto, using(crate::proofs::Ways::small_is_word))]
fn covers(origin: Origin, wanted: Origin) -> bool
    ensures { result ≡ true → (v : Option Value) → is_from origin v ≡ true → is_from wanted v ≡ true }
{
    match wanted {
        Origin::Any => true,
        Origin::Word => match origin {
            Origin::Word => true,
            Origin::Small => true,
            _ => false,
        },
        Origin::Small => match origin {
            Origin::Small => true,
            _ => false,
        },
        Origin::Object(object) => match origin {
            Origin::Object(other) => other == object,
            _ => false,
        },
    }
}

/// Whether a fact follows from others.
fn follows(facts: &[Fact], fact: Fact) -> bool
    ensures { result ≡ true → Sure facts.now (λ s. is_true s fact ≡ true) }
{
    covers(origin_of(facts, fact.register), fact.origin)
        && agree(facts, Form::register(fact.register), fact.form)
}

fn all_follow(facts: &[Fact], wanted: &[Fact]) -> bool
    ensures { result ≡ true → Sure facts.now (λ s. all_true wanted.now s ≡ true) }
{
    for fact in wanted {
        if !follows(facts, *fact) {
            return false;
        }
    }
    true
}

/// Whether what is to be known as a block begins follows.
fn begins(facts: &[Fact], changes: &[Change], block: u32) -> bool
    ensures { result ≡ true → Sure facts.now (λ s. all_true (facts_at changes.now block) s ≡ true) }
{
    match changes.get(block as usize) {
        None => true,
        Some(change) => all_follow(facts, &change.facts),
    }
}

/// Whether what is to be known follows for each block to which an end leads.
pub fn ends(facts: &[Fact], changes: &[Change], end: End) -> bool
    ensures { result ≡ true → (n : ℕ) → LeadsOn (end_of end) n → Sure facts.now (λ s. all_true (facts_at changes.now n) s ≡ true) }
{
    match end {
        End::Jump { block } => begins(facts, changes, block),
        End::Branch { taken, other, .. } => {
            begins(facts, changes, taken) && begins(facts, changes, other)
        }
        End::Return { .. } => true,
    }
}
