// What is left of prices beside the multipliers of loops.
ghost use Rattle.std.specs.Prelude.{◌≡◌, ◌⊎◌, neg_ℤ, IfSome};
ghost use Rattle.rv_core.specs.Table.{table_of};
ghost use Rattle.code_flow_system.specs.Systems.{IsPlaced};
ghost use Rattle.code_flow_system.specs.Certificates.{limits, potential, scaled_price, IsInForm};
ghost use Rattle.loop_walks.specs.Walks.{larger};
ghost use Rattle.path_values.specs.Owed.{IsNarrowNumber, owed_by, larger_of, owe_at};

use code_flow_lookup::moves_at;
use code_flow_system::{Cert, Move, System};
use dual_check::{Running, slack};
use rv_core::Costs;

fn larger(a: i128, b: i128) -> i128
    ensures value { result ≡ larger a b }
    ensures either { (result ≡ a) ⊎ (result ≡ b) }
{
    if a <= b { b } else { a }
}

/// What is left of a price: what a row is short of.
fn shortage(left: Running) -> i128
    ensures value { result ≡ neg_ℤ left.total }
    ensures small { IsNarrowNumber result }
{
    -left.total
}

/// What is left of a move's price; none where its row is wide.
fn owed(system: &System, costs: &Costs, plain: &Cert, step: &Move) -> Option<i128>
    requires placed { IsPlaced step.now.at }
    requires form { IsInForm system.now.claims plain.now }
    ensures value { result ≡ owed_by (scaled_price (table_of costs.now) system.now plain.now) (potential plain.now) (limits system.now.claims plain.now) step.now }
    ensures small { IfSome result IsNarrowNumber }
{
    match slack(system, costs, plain, step) {
        None => None,
        Some(left) => Some(shortage(left)),
    }
}

/// The larger of two numbers, if both are there.
fn larger_of(a: Option<i128>, b: Option<i128>) -> Option<i128>
    requires a { IfSome a IsNarrowNumber }
    requires b { IfSome b IsNarrowNumber }
    ensures value { result ≡ larger_of a b }
    ensures small { IfSome result IsNarrowNumber }
{
    match a {
        None => None,
        Some(x) => match b {
            None => None,
            Some(y) => Some(larger(x, y)),
        },
    }
}

/// The most that is left of the prices of an address, or nothing; none where a row is wide.
pub fn most_owed(system: &System, costs: &Costs, plain: &Cert, at: u32) -> Option<i128>
    requires { IsInForm system.now.claims plain.now }
    ensures value { result ≡ owe_at (table_of costs.now) system.now plain.now at }
    ensures small { IfSome result IsNarrowNumber }
{
    let steps = moves_at(system.moves(), at);
    let mut most = Some(0);
    for k in 0..steps.len() {
        most = larger_of(
            owed(system, costs, plain, &steps[steps.len() - 1 - k]),
            most,
        );
    }
    most
}
