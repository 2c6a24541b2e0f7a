// What a loop is by a factor, in numbers.
ghost use Rattle.std.specs.Prelude.{◌≡◌, ◌+◌, ◌-◌, ◌*◌, ◌%◌, ◌<◌, ◌≤◌, ◌^◌, false, true, nat_lt, if◌then◌else◌};
ghost use Rattle.wcc_base.specs.Budgets.{most_depth};
ghost use Rattle.high_ir.specs.Size.{depth, nodes};
ghost use Rattle.high_ir.specs.Splitting.{split};
ghost use Rattle.high_ir.specs.View.{statement_of};
ghost use Rattle.high_unrolled.specs.Factor.{as_loop, depth_by, fits, growth, has_loop, is_taken};

use super::measure::{busy, depth, has_loop};
use high_ir::statement::Statement;
use wcc_base::MOST_DEPTH;

/// The number of a loop, and from how many up to how many times an entry of it starts its body.
#[derive(Clone, Copy)]
pub struct Turns {
    pub id: u32,
    pub min: u32,
    pub max: u32,
}

/// The fewest starts of the loop behind the first ones, so many at a time.
pub fn split_least(by: Turns, factor: u32) -> u32
    requires { 1 ≤ factor }
    ensures { result ≡ (split (record { least = by.min; most = by.max }) factor).least }
{
    let others = u64::from(by.min.saturating_sub(by.max % factor));
    let rounded = (others + u64::from(factor) - 1) / u64::from(factor);
    if rounded <= 1 { 1 } else { rounded as u32 }
}

/// So many times few operations.
fn times(count: u32, operations: u32) -> u64
    requires { operations < 2 ^ 26 }
    ensures product { result ≡ count * operations }
    ensures fits { result < 2 ^ 58 }
{
    u64::from(count) * u64::from(operations)
}

/// The operations that take the place of a loop whose body has so many.
fn operations_by(factor: u32, most: u32, operations: u32) -> u64
    requires least { 1 ≤ factor }
    requires few { operations < 2 ^ 26 }
    ensures { result ≡ (if nat_lt most factor then 2 + most * operations else 3 + (most % factor + factor) * operations) }
{
    if most < factor {
        let alone = times(most, operations);
        return 2 + alone;
    }
    let first = times(most % factor, operations);
    let others = times(factor, operations);
    3 + first + others
}

/// How many operations more they are than those of the loop, an innermost one.
#[tactic(auto, using(high_unrolled::proofs::Sizes::busy_innermost, high_unrolled::proofs::Sizes::busy_few))]
pub fn growth(factor: u32, most: u32, body: &Statement) -> u64
    requires least { 1 ≤ factor }
    requires nodes { nodes (statement_of body.now) < 2 ^ 26 }
    requires innermost { has_loop (statement_of body.now) ≡ false }
    ensures { result ≡ growth factor (as_loop 0 0 most (statement_of body.now)) }
{
    let operations = busy(body);
    operations_by(factor, most, operations).saturating_sub(u64::from(operations) + 1)
}

/// How deep they are at most.
fn depth_by(factor: u32, most: u32, body: &Statement) -> u32
    requires { depth (statement_of body.now) ≤ most_depth }
    ensures depth { result ≡ depth_by factor (as_loop 0 0 most (statement_of body.now)) }
    ensures most { result ≤ 1027 }
{
    if most < factor {
        return depth(body) + 1;
    }
    depth(body) + 3
}

/// Whether the loop that so many statements stand around passes no budget by the factor.
fn fits(factor: u32, room: u32, level: u32, most: u32, body: &Statement) -> bool
    requires least { 1 ≤ factor }
    requires nodes { nodes (statement_of body.now) < 2 ^ 26 }
    requires depth { level + depth (statement_of body.now) ≤ most_depth }
    requires innermost { has_loop (statement_of body.now) ≡ false }
    ensures { result ≡ fits factor room level (as_loop 0 0 most (statement_of body.now)) }
{
    growth(factor, most, body) <= u64::from(room)
        && u64::from(level + depth_by(factor, most, body)) <= MOST_DEPTH
}

/// Whether a loop is unrolled: an innermost one that fits, where the factor is more than 1.
pub fn is_taken(factor: u32, room: u32, level: u32, most: u32, body: &Statement) -> bool
    requires nodes { nodes (statement_of body.now) < 2 ^ 26 }
    requires depth { level + depth (statement_of body.now) ≤ most_depth }
    ensures taken { result ≡ is_taken factor room level (as_loop 0 0 most (statement_of body.now)) }
    ensures factor { result ≡ true → 2 ≤ factor }
    ensures innermost { result ≡ true → has_loop (statement_of body.now) ≡ false }
{
    if factor < 2 {
        return false;
    }
    if has_loop(body) {
        return false;
    }
    fits(factor, room, level, most, body)
}

/// What is left of room.
pub fn left(room: u32, grown: u64) -> u32
    ensures { result ≡ room - grown }
{
    u64::from(room).saturating_sub(grown) as u32
}
