// The listed flow: its moves are in the system, and what leaves an address is what arrives there.
ghost use Rattle.std.specs.Prelude.{◌≡◌, ◌+◌, ◌<◌, ◌≤◌, ◌^◌, pos, neg_ℤ, ◌+ℤ◌, ◌-ℤ◌, unsigned_abs, IfSome, IsNone, ◌↔◌, not};
ghost use Rattle.frac128.specs.Terms.{int_sum_by, coefficient, when_same};
ghost use Rattle.code_flow_system.specs.Counts.{amount, inflow};
ghost use Rattle.code_flow_system.specs.Lookups.{amount_at};
ghost use Rattle.code_flow_system.specs.Certificates.{listed, has_move, size_by, IsInForm, PartsAscend};
ghost use Rattle.code_flow_system.specs.Systems.{AreAscending};
ghost use Rattle.dual_check.specs.Verdicts.{IsFlowEverywhere};
ghost use Rattle.dual_check.specs.Rows.{counts, FailsFlow};
ghost use Rattle.dual_check.specs.Leasts.{IsLeastOf, IsAtBad};
ghost use Rattle.dual_check.specs.Tests.{is_balanced_at};

use crate::missing::lesser;
use crate::running::{Running, add_term, nothing};
use code_flow_lookup::{amount, arrivals_at, has_move, moves_at};
use code_flow_system::{Arrival, Cert, Move, Part, System};

/// How often the listed flow makes a move.
pub fn amount_of(system: &System, cert: &Cert, step: &Move) -> i128
    requires { IsInForm system.now.claims cert.now }
    ensures { result ≡ amount (listed cert.now.flow.parts) step.now }
{
    amount(cert.flow.parts.as_slice(), step.at, step.number)
}

/// How often it makes the move at a place of the list.
fn amount_at(system: &System, cert: &Cert, place: usize) -> i128
    requires { IsInForm system.now.claims cert.now }
    ensures { result ≡ amount_at (listed cert.now.flow.parts) system.now.moves place }
{
    let moves = system.moves();
    if place < moves.len() {
        return amount_of(system, cert, &moves[place]);
    }
    0
}

/// How often it makes some moves.
pub fn add_moves(sum: Running, system: &System, cert: &Cert, moves: &[Move]) -> Option<Running>
    requires { IsInForm system.now.claims cert.now }
    ensures none { IsNone result ↔ (2 ^ 126 ≤ sum.size + size_by (λ m. amount (listed cert.now.flow.parts) m) moves.now) }
    ensures total { IfSome result (λ r. r.total ≡ sum.total +ℤ int_sum_by (λ m. amount (listed cert.now.flow.parts) m) moves.now) }
    ensures size { IfSome result (λ r. r.size ≡ sum.size + size_by (λ m. amount (listed cert.now.flow.parts) m) moves.now) }
{
    let mut all = sum;
    for i in 0..moves.len() {
        let number = amount_of(system, cert, &moves[i]);
        all = add_term(all, 1, number)?;
    }
    Some(all)
}

/// Less how often it makes the moves of some arrivals.
fn add_arrivals(sum: Running, system: &System, cert: &Cert, arrivals: &[Arrival]) -> Option<Running>
    requires { IsInForm system.now.claims cert.now }
    ensures none { IsNone result ↔ (2 ^ 126 ≤ sum.size + size_by (λ r. neg_ℤ (amount_at (listed cert.now.flow.parts) system.now.moves r.place)) arrivals.now) }
    ensures total { IfSome result (λ r. r.total ≡ sum.total +ℤ int_sum_by (λ r. neg_ℤ (amount_at (listed cert.now.flow.parts) system.now.moves r.place)) arrivals.now) }
    ensures size { IfSome result (λ r. r.size ≡ sum.size + size_by (λ r. neg_ℤ (amount_at (listed cert.now.flow.parts) system.now.moves r.place)) arrivals.now) }
{
    let mut all = sum;
    for i in 0..arrivals.len() {
        let number = amount_at(system, cert, arrivals[i].place);
        all = add_term(all, -1, number)?;
    }
    Some(all)
}

/// The unit, at the entry.
fn unit_at(system: &System, cert: &Cert, at: u32) -> i128
    ensures { result ≡ when_same system.now.entry at (pos cert.now.flow.unit) }
{
    if system.entry() == at {
        return i128::from(cert.flow.unit);
    }
    0
}

/// What leaves an address, less what arrives there.
fn balance(system: &System, cert: &Cert, at: u32) -> Option<Running>
    requires { IsInForm system.now.claims cert.now }
    ensures none { IsNone result ↔ (2 ^ 126 ≤ unsigned_abs (counts system.now cert.now at) + unsigned_abs (coefficient (inflow system.now.entry cert.now.flow.unit (listed cert.now.flow.parts) system.now.moves) at)) }
    ensures total { IfSome result (λ r. r.total ≡ counts system.now cert.now at -ℤ coefficient (inflow system.now.entry cert.now.flow.unit (listed cert.now.flow.parts) system.now.moves) at) }
{
    let here = moves_at(system.moves(), at);
    let there = arrivals_at(system.arrivals(), at);
    let unit = add_term(nothing(), -1, unit_at(system, cert, at))?;
    let left = add_moves(unit, system, cert, here)?;
    add_arrivals(left, system, cert, there)
}

/// Whether what leaves an address is what arrives there, and narrow.
fn is_balanced_at(system: &System, cert: &Cert, at: u32) -> bool
    requires { IsInForm system.now.claims cert.now }
    ensures { result ≡ is_balanced_at system.now cert.now at }
{
    match balance(system, cert, at) {
        Some(sum) => sum.total == 0,
        None => false,
    }
}

/// The first address of some moves that isn't balanced.
fn first_unbalanced(system: &System, cert: &Cert, moves: &[Move]) -> Option<u32>
    requires form { IsInForm system.now.claims cert.now }
    requires ascending { AreAscending moves.now }
    ensures { IsLeastOf (IsAtBad (λ m. m.at) (λ m. not (is_balanced_at system.now cert.now m.at)) moves.now) result }
{
    for i in 0..moves.len() {
        if !is_balanced_at(system, cert, moves[i].at) {
            return Some(moves[i].at);
        }
    }
    None
}

/// The first address of the parts of a flow with a move that isn't among the moves.
fn first_strange(moves: &[Move], parts: &[Part]) -> Option<u32>
    requires moves { AreAscending moves.now }
    requires parts { PartsAscend parts.now }
    ensures { IsLeastOf (IsAtBad (λ p. p.at) (λ p. not (has_move moves.now p.at p.number)) parts.now) result }
{
    for i in 0..parts.len() {
        if !has_move(moves, parts[i].at, parts[i].number) {
            return Some(parts[i].at);
        }
    }
    None
}

/// The least address where the listed flow makes a move that isn't there, or isn't balanced.
pub fn first_flow_fault(system: &System, cert: &Cert) -> Option<u32>
    requires { IsInForm system.now.claims cert.now }
    ensures least { IsLeastOf (FailsFlow system.now cert.now) result }
    ensures none { IsNone result → IsFlowEverywhere system.now cert.now }
{
    let moves = system.moves();
    let parts = cert.flow.parts.as_slice();
    let strange = first_strange(moves, parts);
    let unbalanced = first_unbalanced(system, cert, moves);
    lesser(strange, unbalanced)
}
