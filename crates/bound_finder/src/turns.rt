// How often a loop turns that counts from a word to a limit.
ghost use Rattle.std.specs.Prelude.{◌≡◌, ◌≤◌, ◌<◌, ◌^◌, ◌≤ℤ◌, pos};
ghost use Rattle.wcc_base.specs.Words.{signed_word};
ghost use Rattle.facts_loops.specs.Counting.{bounds_by, distance, is_strict, is_up, least_turns, turns, turns_over};

use facts_definitions::Bounds;
use facts_loops::Limit;
use types_value::Operator;
use wcc_base::sign_extend;

/// Whether what is compared so rises to its limit.
pub fn is_up(operator: Operator) -> bool
    ensures { result ≡ is_up operator }
{
    match operator {
        Operator::Less => true,
        Operator::LessEqual => true,
        _ => false,
    }
}

fn is_strict(operator: Operator) -> bool
    ensures { result ≡ is_strict operator }
{
    match operator {
        Operator::Less => true,
        Operator::Greater => true,
        _ => false,
    }
}

/// The number of a word in two's complement.
fn signed(word: u32) -> i32
    ensures { result ≡ signed_word word }
{
    sign_extend(word, 32)
}

/// How far the limit lies ahead.
fn distance(up: bool, first: u32, limit: u32) -> i64
    ensures { result ≡ distance up first limit }
{
    let (first, limit) = (signed(first), signed(limit));
    if up {
        return i64::from(limit) - i64::from(first);
    }
    i64::from(first) - i64::from(limit)
}

/// A distance that isn't negative.
fn ahead(distance: i64) -> u64
    requires { pos 0 ≤ℤ distance }
    ensures { distance ≡ pos result }
{
    distance as u64
}

#[tactic(auto, using(crate::proofs::Quotients::room))]
fn steps_over(strict: bool, ahead: u64, step: u32) -> u64
    requires small { ahead < 2 ^ 63 }
    requires some { 1 ≤ step }
    ensures { result ≡ turns_over strict (pos ahead) step }
{
    let step = u64::from(step);
    if strict {
        return (ahead + (step - 1)) / step;
    }
    ahead / step + 1
}

/// How many steps come to the limit, or pass it.
#[tactic(auto, using(crate::proofs::Quotients::none_behind))]
fn turns_over(strict: bool, distance: i64, step: u32) -> u64
    requires { 1 ≤ step }
    ensures { result ≡ turns_over strict distance step }
{
    if distance < 0 {
        return 0;
    }
    steps_over(strict, ahead(distance), step)
}

/// How often a loop turns that counts from a word by such steps.
pub fn turns(first: u32, limit: Limit, step: u32) -> u64
    requires { 1 ≤ step }
    ensures { result ≡ turns first limit step }
{
    let ahead = distance(is_up(limit.operator), first, limit.word);
    turns_over(is_strict(limit.operator), ahead, step)
}

fn least_turns(left: bool, turns: u32) -> u32
    ensures { result ≡ least_turns left turns }
{
    if left { turns.min(1) } else { turns }
}

/// The bounds of a loop that turns so often, and may be left before.
pub fn bounds_by(left: bool, turns: u64) -> Option<Bounds>
    ensures { result ≡ bounds_by left turns }
{
    if turns <= 2_147_483_647 {
        let turns = turns as u32;
        return Some(Bounds {
            min: least_turns(left, turns),
            max: turns,
        });
    }
    None
}
