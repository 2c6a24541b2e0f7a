// Ends that go on past blocks that do nothing.
ghost use Rattle.std.specs.Prelude.{◌≡◌, ℕ, true, All, IfSome};
ghost use Rattle.low_ir.specs.View.{end_of, function_of, operand_of};
ghost use Rattle.pass_jump_threading_law.specs.Known.{Equals, tells};
ghost use Rattle.pass_jump_threading_law.specs.Threads.{EndThreaded};
ghost use Rattle.pass_jump_threading.specs.Facts.{Begins, Covers, IsTold, known_in};
ghost use Rattle.pass_jump_threading.specs.Planning.{IsSeen, Landing, name_in, plan_of};

use super::facts::{Fact, say_all, word_of};
use super::planning::{Planned, Stay};
use super::ways::{goal, lead};
use low_ir::{End, Function, Operand};
use rv_core::Condition;

/// Whether a branch that is taken, or one that isn't, tells that its operands are equal.
fn tells(condition: Condition, taken: bool) -> bool
    ensures { result ≡ tells condition taken }
{
    match condition {
        Condition::Equal => taken,
        Condition::NotEqual => !taken,
        Condition::Less => false,
        Condition::AtLeast => false,
        Condition::LessUnsigned => false,
        Condition::AtLeastUnsigned => false,
    }
}

/// What a branch tells of its left operand where it is taken, or where it isn't.
pub fn told(
    held: &[Option<u32>],
    facts: &[Fact],
    condition: Condition,
    left: Operand,
    right: Operand,
    taken: bool,
) -> Option<Fact>
    ensures { (r w : ℕ) → IsTold result r w → (tells condition taken ≡ true) × Equals (known_in held.now facts.now) (operand_of left) (operand_of right) r w }
{
    if !tells(condition, taken) {
        return None;
    }
    match left {
        Operand::Constant(_) => None,
        Operand::Register(register) => Some(Fact {
            register,
            word: word_of(held, facts, right),
        }),
    }
}

/// The number of a block among those that are left.
pub fn name_at(stays: &[Option<Stay>], block: u32) -> Option<u32>
    ensures { result ≡ name_in stays.now block }
{
    match stays.get(block as usize) {
        None => None,
        Some(None) => None,
        Some(Some(stay)) => Some(stay.name),
    }
}

/// Whether what is planned for where a block begins is known, or told besides.
fn begins(
    plan: &Planned,
    held: &[Option<u32>],
    facts: &[Fact],
    told: Option<Fact>,
    block: u32,
) -> bool
    ensures { result ≡ true → Covers plan.now.held.items (known_in held.now facts.now) → Begins (known_in held.now facts.now) told ((plan_of plan.now).at block) }
{
    if block == 0 {
        return false;
    }
    match plan.stays.get(block as usize) {
        None => false,
        Some(None) => false,
        Some(Some(stay)) => say_all(held, facts, told, &stay.facts),
    }
}

/// The number of the block to which one comes from a block on.
fn landing(
    function: &Function,
    plan: &Planned,
    held: &[Option<u32>],
    facts: &[Fact],
    told: Option<Fact>,
    block: u32,
) -> Option<u32>
    ensures { IfSome result (λ c. All (IsSeen plan.now.seen.items) (function_of function.now).loops → Covers plan.now.held.items (known_in held.now facts.now) → Landing (function_of function.now) plan.now (known_in held.now facts.now) told block c) }
{
    let old = lead(function, &plan.seen, held, facts, block);
    if !begins(plan, held, facts, told, old) {
        return None;
    }
    name_at(&plan.stays, old)
}

/// A jump in place of an end that goes to one block.
fn settled(
    function: &Function,
    plan: &Planned,
    held: &[Option<u32>],
    facts: &[Fact],
    end: End,
) -> Option<End>
    ensures { IfSome result (λ new. All (IsSeen plan.now.seen.items) (function_of function.now).loops → Covers plan.now.held.items (known_in held.now facts.now) → EndThreaded (function_of function.now) (plan_of plan.now) (known_in held.now facts.now) (end_of end) (end_of new)) }
{
    let Some(next) = goal(held, facts, end) else {
        return None;
    };
    match landing(function, plan, held, facts, None, next) {
        None => None,
        Some(block) => Some(End::Jump { block }),
    }
}

/// An end that goes on past blocks that do nothing, if that was planned well.
pub fn threaded_end(
    function: &Function,
    plan: &Planned,
    held: &[Option<u32>],
    facts: &[Fact],
    end: End,
) -> Option<End>
    ensures { IfSome result (λ new. All (IsSeen plan.now.seen.items) (function_of function.now).loops → Covers plan.now.held.items (known_in held.now facts.now) → EndThreaded (function_of function.now) (plan_of plan.now) (known_in held.now facts.now) (end_of end) (end_of new)) }
{
    match end {
        End::Return { value } => Some(End::Return { value }),
        End::Jump { .. } => settled(function, plan, held, facts, end),
        End::Branch {
            condition,
            left,
            right,
            taken,
            other,
        } => {
            if let Some(new) = settled(function, plan, held, facts, end) {
                return Some(new);
            }
            let so = told(held, facts, condition, left, right, true);
            let not = told(held, facts, condition, left, right, false);
            let Some(taken) = landing(function, plan, held, facts, so, taken) else {
                return None;
            };
            let Some(other) = landing(function, plan, held, facts, not, other) else {
                return None;
            };
            Some(End::Branch {
                condition,
                left,
                right,
                taken,
                other,
            })
        }
    }
}
