// Whether the value of the listed flow is the entry's potential over the scale.
ghost use Rattle.std.specs.Prelude.{◌≡◌, ◌+◌, ◌<◌, ◌≤◌, ◌^◌, pos, ◌+ℤ◌, ◌*ℤ◌, unsigned_abs, IfSome, IsNone, ◌↔◌, true};
ghost use Rattle.frac128.specs.Terms.{int_sum_by};
ghost use Rattle.rv_core.specs.Table.{table_of};
ghost use Rattle.code_flow_system.specs.declared.cert.Mark.{Mark};
ghost use Rattle.code_flow_system.specs.Counts.{amount};
ghost use Rattle.code_flow_system.specs.Flows.{price, value};
ghost use Rattle.code_flow_system.specs.Certificates.{listed, size_by, whole_part, IsInForm};
ghost use Rattle.dual_check.specs.Rows.{HasValue, IsReached};

use crate::flows::amount_of;
use crate::potentials::potential_of;
use crate::running::{Running, add_term, nothing};
use crate::wide::whole;
use code_flow_lookup::move_cost;
use code_flow_system::{Cert, System};
use frac128::compare_ratios;
use rv_core::Costs;
use std::cmp::Ordering;

/// A sum and what the listed flow pays for its moves.
fn add_costs(sum: Running, system: &System, costs: &Costs, cert: &Cert) -> Option<Running>
    requires { IsInForm system.now.claims cert.now }
    ensures none { IsNone result ↔ (2 ^ 126 ≤ sum.size + size_by (λ m. amount (listed cert.now.flow.parts) m *ℤ price (table_of costs.now) system.now m) system.now.moves) }
    ensures total { IfSome result (λ r. r.total ≡ sum.total +ℤ int_sum_by (λ m. amount (listed cert.now.flow.parts) m *ℤ price (table_of costs.now) system.now m) system.now.moves) }
{
    let moves = system.moves();
    let mut all = sum;
    for i in 0..moves.len() {
        let step = &moves[i];
        let cost = whole(move_cost(system, costs, step));
        all = add_term(all, amount_of(system, cert, step), cost)?;
    }
    Some(all)
}

/// The listed flow's value, over its unit.
fn value(system: &System, costs: &Costs, cert: &Cert) -> Option<Running>
    requires { IsInForm system.now.claims cert.now }
    ensures none { IsNone result ↔ (2 ^ 126 ≤ unsigned_abs (value (table_of costs.now) system.now (listed cert.now.flow.parts))) }
    ensures total { IfSome result (λ r. r.total ≡ value (table_of costs.now) system.now (listed cert.now.flow.parts)) }
{
    add_costs(nothing(), system, costs, cert)
}

/// Whether a number over the unit is another one over the scale.
fn is_ratio(number: i128, unit: u64, other: i128, scale: u64) -> bool
    requires unit { 0 < unit }
    requires scale { 0 < scale }
    ensures { (result ≡ true) ↔ ((pos scale *ℤ number) ≡ (pos unit *ℤ other)) }
{
    compare_ratios(number, whole(unit), other, whole(scale)) == Ordering::Equal
}

/// Whether the listed flow's value is the entry's potential over the scale.
pub fn is_reached(system: &System, costs: &Costs, cert: &Cert) -> bool
    requires form { IsInForm system.now.claims cert.now }
    requires mark { cert.now.mark ≡ Mark.Greatest }
    ensures { (result ≡ true) ↔ IsReached (table_of costs.now) system.now cert.now }
{
    match value(system, costs, cert) {
        Some(sum) => {
            let entry = potential_of(cert, system.entry());
            is_ratio(sum.total, cert.flow.unit, entry, cert.scale)
        }
        None => false,
    }
}

/// The whole part of a number over a scale, 0 where it is negative.
fn whole_part(number: i128, scale: u64) -> u128
    requires { 0 < scale }
    ensures { result ≡ whole_part number scale }
{
    if number < 0 {
        return 0;
    }
    number as u128 / u128::from(scale)
}

/// Whether the cycles are the whole part of the entry's potential over the scale.
pub fn has_value(system: &System, cert: &Cert) -> bool
    requires { IsInForm system.now.claims cert.now }
    ensures { (result ≡ true) ↔ HasValue system.now cert.now }
{
    let entry = potential_of(cert, system.entry());
    u128::from(cert.cycles) == whole_part(entry, cert.scale)
}
