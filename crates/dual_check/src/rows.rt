// The rows of the moves: what a move costs is covered by the potentials and the multipliers.
ghost use Rattle.std.specs.Prelude.{◌≡◌, ◌+◌, ◌*◌, ◌<◌, ◌≤◌, ◌^◌, ℤ, pos, ◌+ℤ◌, ◌-ℤ◌, ◌*ℤ◌, unsigned_abs, IfSome, IsNone, ◌↔◌, Some, None, int_lt, if◌then◌else◌};
ghost use Rattle.std.specs.Option.{option_to_list};
ghost use Rattle.frac128.specs.Terms.{int_sum_by, coefficient};
ghost use Rattle.rv_core.specs.Table.{table_of};
ghost use Rattle.code_flow_system.specs.Moves.{destinations};
ghost use Rattle.code_flow_system.specs.Systems.{IsPlaced};
ghost use Rattle.code_flow_system.specs.Lookups.{by_at, HasMultipliers};
ghost use Rattle.code_flow_system.specs.Certificates.{limits, held, fall, size_by, row_size, potential, scaled_price, AddressesAscend, IsInForm};
ghost use Rattle.dual_check.specs.declared.row.Row.{Row};
ghost use Rattle.dual_check.specs.Rows.{move_fault};
ghost use Rattle.dual_check.specs.Verdicts.{first_of_moves};

use crate::Row;
use crate::multipliers::multiplier;
use crate::potentials::potential_of;
use crate::running::{Running, add_term, nothing};
use code_flow_lookup::{mentions_at, move_cost};
use code_flow_system::{Cert, Mention, Move, System};
use rv_core::Costs;

/// Less the potential of an address at which a move arrives, if it does.
fn add_arrival(sum: Running, cert: &Cert, to: Option<u32>) -> Option<Running>
    requires { AddressesAscend cert.now.potentials }
    ensures none { IsNone result ↔ (2 ^ 126 ≤ sum.size + size_by (potential cert.now) (option_to_list to)) }
    ensures total { IfSome result (λ r. r.total ≡ sum.total -ℤ int_sum_by (potential cert.now) (option_to_list to)) }
    ensures size { IfSome result (λ r. r.size ≡ sum.size + size_by (potential cert.now) (option_to_list to)) }
{
    match to {
        Some(to) => add_term(sum, -1, potential_of(cert, to)),
        None => Some(sum),
    }
}

/// The fall of the potential from a move's address to where it arrives.
fn add_fall(sum: Running, cert: &Cert, step: &Move) -> Option<Running>
    requires { AddressesAscend cert.now.potentials }
    ensures none { IsNone result ↔ (2 ^ 126 ≤ sum.size + (unsigned_abs (potential cert.now step.now.at) + size_by (potential cert.now) (destinations step.now))) }
    ensures total { IfSome result (λ r. r.total ≡ sum.total +ℤ fall (potential cert.now) step.now) }
    ensures size { IfSome result (λ r. r.size ≡ sum.size + (unsigned_abs (potential cert.now step.now.at) + size_by (potential cert.now) (destinations step.now))) }
{
    let left = add_term(sum, 1, potential_of(cert, step.at))?;
    let gone = add_arrival(left, cert, step.to)?;
    add_arrival(gone, cert, step.behind)
}

/// Each mention's number times the multiplier of its limit.
fn add_mentions(sum: Running, system: &System, cert: &Cert, mentions: &[Mention]) -> Option<Running>
    requires { HasMultipliers system.now.claims cert.now }
    ensures none { IsNone result ↔ (2 ^ 126 ≤ sum.size + size_by (λ m. by_at (limits system.now.claims cert.now) m.limit *ℤ m.coefficient) mentions.now) }
    ensures total { IfSome result (λ r. r.total ≡ sum.total +ℤ int_sum_by (λ m. by_at (limits system.now.claims cert.now) m.limit *ℤ m.coefficient) mentions.now) }
    ensures size { IfSome result (λ r. r.size ≡ sum.size + size_by (λ m. by_at (limits system.now.claims cert.now) m.limit *ℤ m.coefficient) mentions.now) }
{
    let mut all = sum;
    for i in 0..mentions.len() {
        let by = multiplier(system, cert, mentions[i].limit);
        all = add_term(all, by, mentions[i].coefficient)?;
    }
    Some(all)
}

/// What the limits of the claims hold at an address.
fn add_held(sum: Running, system: &System, cert: &Cert, at: u32) -> Option<Running>
    requires { HasMultipliers system.now.claims cert.now }
    ensures none { IsNone result ↔ (2 ^ 126 ≤ sum.size + size_by (λ l. l.by *ℤ coefficient l.terms at) (limits system.now.claims cert.now)) }
    ensures total { IfSome result (λ r. r.total ≡ sum.total +ℤ held (limits system.now.claims cert.now) at) }
    ensures size { IfSome result (λ r. r.size ≡ sum.size + size_by (λ l. l.by *ℤ coefficient l.terms at) (limits system.now.claims cert.now)) }
{
    let here = mentions_at(system.mentions(), at);
    add_mentions(sum, system, cert, here)
}

/// Cycles over the scale.
pub fn price(cycles: u64, scale: u64) -> i128
    requires cycles { cycles < 2 ^ 33 }
    requires scale { scale ≤ 2 ^ 48 }
    ensures { result ≡ pos (cycles * scale) }
{
    i128::from(cycles) * i128::from(scale)
}

/// What is left of a move's row when its price is paid; none where the absolute values of the row come to 2^126.
pub fn slack(system: &System, costs: &Costs, cert: &Cert, step: &Move) -> Option<Running>
    requires placed { IsPlaced step.now.at }
    requires form { IsInForm system.now.claims cert.now }
    ensures none { IsNone result ↔ (2 ^ 126 ≤ row_size (scaled_price (table_of costs.now) system.now cert.now) (potential cert.now) (limits system.now.claims cert.now) step.now) }
    ensures total { IfSome result (λ r. r.total ≡ (fall (potential cert.now) step.now +ℤ held (limits system.now.claims cert.now) step.now.at) -ℤ scaled_price (table_of costs.now) system.now cert.now step.now) }
{
    let fall = add_fall(nothing(), cert, step)?;
    let held = add_held(fall, system, cert, step.at)?;
    let price = price(move_cost(system, costs, step), cert.scale);
    add_term(held, -1, price)
}

/// The fault of a move whose row leaves less than nothing.
fn uncovered(left: Running, step: &Move) -> Option<Row>
    ensures { result ≡ if int_lt left.total (pos 0) then Some (Row.Move step.now.at step.now.number) else None }
{
    if left.total < 0 {
        return Some(Row::Move {
            at: step.at,
            number: step.number,
        });
    }
    None
}

/// The fault of a move's row, if there is one.
fn move_fault(system: &System, costs: &Costs, cert: &Cert, step: &Move) -> Option<Row>
    requires placed { IsPlaced step.now.at }
    requires form { IsInForm system.now.claims cert.now }
    ensures { result ≡ move_fault (scaled_price (table_of costs.now) system.now cert.now) (potential cert.now) (limits system.now.claims cert.now) step.now }
{
    match slack(system, costs, cert, step) {
        Some(left) => uncovered(left, step),
        None => Some(Row::Wide { at: step.at }),
    }
}

/// The first fault of the moves' rows.
pub fn first_of_moves(system: &System, costs: &Costs, cert: &Cert) -> Option<Row>
    requires { IsInForm system.now.claims cert.now }
    ensures { result ≡ first_of_moves (table_of costs.now) system.now cert.now }
{
    let moves = system.moves();
    for i in 0..moves.len() {
        if let Some(row) = move_fault(system, costs, cert, &moves[i]) {
            return Some(row);
        }
    }
    None
}
