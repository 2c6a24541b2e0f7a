// What listed moves cost.
ghost use Rattle.std.specs.Prelude.{◌≡◌, ◌+◌, ◌*◌, ◌<◌, ◌≤◌, ◌^◌, All, IsNone, IfSome, ◌↔◌};
ghost use Rattle.rv_core.specs.Table.{table_of};
ghost use Rattle.code_flow_system.specs.Systems.{AreAscending, IsPlaced};
ghost use Rattle.code_flow_system.specs.MoveCosts.{move_cost};
ghost use Rattle.code_flow_system.specs.Certificates.{listed, IsPart, PartsAscend};
ghost use Rattle.report_shares.specs.Shares.{moves_between, spent};

use code_flow_lookup::{amount, move_cost};
use code_flow_system::{Flow, Move, System};
use rv_core::Costs;

/// 2 to the 126th.
const WIDE: u128 = 85070591730234615865843651857942052864;

/// The moves of the addresses from the first up to the end.
fn moves_between(moves: &[Move], first: u32, end: u32) -> &[Move]
    requires { AreAscending moves.now }
    ensures { result.now ≡ moves_between first end moves.now }
{
    let start = moves.partition_point(|m| m.at < first);
    let rest = &moves[start..];
    let count = rest.partition_point(|m| m.at < end);
    &rest[..count]
}

/// A sum and one more product; none where it comes to 2^126.
fn add_product(sum: u128, number: u128, cost: u64) -> Option<u128>
    ensures none { IsNone result ↔ (2 ^ 126 ≤ sum + number * cost) }
    ensures value { IfSome result (λ n. n ≡ sum + number * cost) }
    ensures small { IfSome result (λ n. n < 2 ^ 126) }
{
    let product = number.checked_mul(u128::from(cost))?;
    let all = sum.checked_add(product)?;
    if all >= WIDE {
        return None;
    }
    Some(all)
}

/// How often the listed flow makes a move.
fn number_of(flow: &Flow, step: &Move) -> u128
    requires ascending { PartsAscend flow.now.parts }
    requires parts { All IsPart flow.now.parts }
    ensures { result ≡ listed flow.now.parts step.now.at step.now.number }
{
    amount(flow.parts.as_slice(), step.at, step.number).unsigned_abs()
}

/// What listed moves cost; none where it comes to 2^126.
fn spent(system: &System, costs: &Costs, flow: &Flow, moves: &[Move]) -> Option<u128>
    requires ascending { PartsAscend flow.now.parts }
    requires parts { All IsPart flow.now.parts }
    requires placed { All (λ m. IsPlaced m.at) moves.now }
    ensures none { IsNone result ↔ (2 ^ 126 ≤ spent (table_of costs.now) system.now flow.now.parts moves.now) }
    ensures value { IfSome result (λ n. n ≡ spent (table_of costs.now) system.now flow.now.parts moves.now) }
{
    let mut all = 0;
    for i in 0..moves.len() {
        let step = &moves[i];
        let cost = move_cost(system, costs, step);
        all = add_product(all, number_of(flow, step), cost)?;
    }
    Some(all)
}

/// What the listed moves of the addresses from the first up to the end cost; none where it comes to
/// 2^126.
pub fn spent_between(
    system: &System,
    costs: &Costs,
    flow: &Flow,
    first: u32,
    end: u32,
) -> Option<u128>
    requires ascending { PartsAscend flow.now.parts }
    requires parts { All IsPart flow.now.parts }
    ensures none { IsNone result ↔ (2 ^ 126 ≤ spent (table_of costs.now) system.now flow.now.parts (moves_between first end system.now.moves)) }
    ensures value { IfSome result (λ n. n ≡ spent (table_of costs.now) system.now flow.now.parts (moves_between first end system.now.moves)) }
{
    let moves = moves_between(system.moves(), first, end);
    spent(system, costs, flow, moves)
}
