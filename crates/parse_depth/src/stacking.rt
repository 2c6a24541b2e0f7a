ghost use Rattle.std.specs.Prelude.{◌+◌, ◌≤◌, ◌↔◌, IsTrue, max};
ghost use Rattle.parse_begun.specs.Depths.{head_depth, purpose_depth, stack_depth, test_depth};
ghost use Rattle.parse_depth.specs.Known.{purpose_known, stack_known, test_known};

use super::declaring::{declarator_fits, head_fits};
use super::framing::{frames_fit, items_fit};
use parse_begun::begun::{Purpose, Receiver, Stack, Test};
use parse_begun::part::Parts;

/// Whether what has begun is shallow enough where the test is so deep.
#[tactic(auto, using(parse_begun::proofs::Deeper::test_deeper))]
pub fn test_fits(test: &Test, depth: u32) -> bool
    requires known { test_known test.now ≤ 256 }
    ensures { IsTrue result ↔ (test_depth test.now depth ≤ 256) }
{
    if depth > 256 {
        return false;
    }
    match test {
        Test::OfIf { under, .. } => frames_fit(under, depth + 1),
        Test::OfWhile(_, under) => frames_fit(under, depth + 1),
        Test::OfDo(_, body, under) => frames_fit(under, body.depth.max(depth) + 1),
        Test::OfChoice { under, .. } => frames_fit(under, depth + 1),
    }
}

/// Whether what has begun is shallow enough with a value of this depth more.
#[tactic(auto, using(parse_begun::proofs::Deeper::scope_deeper, crate::proofs::Stops::values_stop, crate::proofs::Stops::values_go))]
fn values_fit(object: &Receiver, front: &Parts, depth: u32) -> bool
    requires known { head_depth object.now.head (max object.now.shape.depth front.now.depth + 1) ≤ 256 }
    ensures { IsTrue result ↔ (head_depth object.now.head (max object.now.shape.depth (max front.now.depth depth) + 1) ≤ 256) }
{
    if depth <= front.depth {
        return true;
    }
    if depth > 256 {
        return false;
    }
    let values = front.depth.max(depth);
    head_fits(&object.head, object.shape.depth.max(values) + 1)
}

/// Whether what has begun is shallow enough where the whole expression is so deep.
#[tactic(auto, using(parse_begun::proofs::Deeper::purpose_deeper))]
fn purpose_fits(purpose: &Purpose, depth: u32) -> bool
    requires known { purpose_known purpose.now ≤ 256 }
    ensures { IsTrue result ↔ (purpose_depth purpose.now depth ≤ 256) }
{
    if depth > 256 {
        return false;
    }
    match purpose {
        Purpose::Evaluates(under) => frames_fit(under, depth + 1),
        Purpose::Returns { under, .. } => frames_fit(under, depth + 1),
        Purpose::Tests(test) => test_fits(test, depth),
        Purpose::Starts(_, under) => frames_fit(under, depth + 1),
        Purpose::Guards(head, under) => frames_fit(under, head.start.depth.max(depth) + 1),
        Purpose::Repeats(head, under) => {
            let beside = head.start.depth.max(head.test.depth);
            frames_fit(under, beside.max(depth) + 1)
        }
        Purpose::Sizes(declarator) => declarator_fits(declarator, depth),
        Purpose::Initialises(object) => {
            head_fits(&object.head, object.shape.depth.max(depth) + 1)
        },
        Purpose::Lists(object, front) => values_fit(object, front, depth),
        Purpose::Labels { front, braces, .. } => items_fit(braces, front, depth + 1),
    }
}

/// Whether what has begun is shallow enough where the operand is so deep.
#[tactic(auto, using(parse_begun::proofs::Deeper::stack_deeper, crate::proofs::Stops::arguments_stop, crate::proofs::Stops::arguments_go))]
pub fn stack_fits(under: &Stack, depth: u32) -> bool
    requires known { stack_known under.now ≤ 256 }
    ensures { IsTrue result ↔ (stack_depth under.now depth ≤ 256) }
{
    if depth > 256 {
        return false;
    }
    match under {
        Stack::Base(purpose) => purpose_fits(purpose, depth),
        Stack::InParen { under: rest, .. } => stack_fits(rest, depth + 1),
        Stack::InIndex(_, rest) => stack_fits(rest, depth + 1),
        Stack::InCall(_, front, rest) => {
            if depth <= front.depth {
                return true;
            }
            stack_fits(rest, front.depth.max(depth) + 1)
        }
        Stack::AfterPrefix { under: rest, .. } => stack_fits(rest, depth + 1),
        Stack::AfterCast { under: rest, .. } => stack_fits(rest, depth + 1),
        Stack::AfterJoin {
            left,
            under: rest,
            ..
        } => stack_fits(rest, left.depth.max(depth) + 1),
        Stack::AfterQuestion { test, under: rest } => stack_fits(rest, test.depth.max(depth) + 1),
        Stack::AfterColon {
            test,
            first,
            under: rest,
        } => { stack_fits(rest, test.depth.max(first.depth).max(depth) + 1) }
        Stack::AfterAssign {
            target,
            under: rest,
            ..
        } => stack_fits(rest, target.depth.max(depth) + 1),
    }
}
