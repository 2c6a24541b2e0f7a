// Amounts of moves: a flow added to them, and those that are made.
ghost use Rattle.std.specs.Prelude.{◌≡◌, ◌+◌, ◌*◌, ◌<◌, ◌≤◌, ◌^◌, length, IfOk, All};
ghost use Rattle.code_flow_system.specs.Certificates.{listed};
ghost use Rattle.path_flows.specs.Flows.{parts_of};
ghost use Rattle.path_fact_columns.specs.Answers.{AreParts};
ghost use Rattle.path_fact_columns.specs.Adding.{raised};

use code_flow_lookup::amount;
use code_flow_system::{Move, Part};
use path_flow_counts::push_part;
use std::alloc::{AllocError, Global};

/// How often a flow makes a move.
#[tactic(auto, using(crate::proofs::PartLemmas::listed_below))]
fn made(parts: &[Part], step: &Move) -> u128
    requires { AreParts parts.now }
    ensures value { result ≡ listed parts.now step.now.at step.now.number }
    ensures small { result < 2 ^ 60 }
{
    amount(parts, step.at, step.number) as u128
}

/// An amount, raised by another one, so often.
#[tactic(auto, using(crate::proofs::AddLemmas::product_small))]
fn raised(old: u128, often: u128, more: u128) -> u128
    requires old { old < 2 ^ 120 }
    requires often { often ≤ 2 ^ 44 }
    requires more { more < 2 ^ 60 }
    ensures { result ≡ old + often * more }
{
    old + often * more
}

/// Adds a flow, so often, to the amounts of the moves.
pub(crate) fn add_flow(amounts: &mut [u128], moves: &[Move], parts: &[Part], often: u128)
    requires long { length amounts.now ≡ length moves.now }
    requires small { All (λ u. u < 2 ^ 120) amounts.now }
    requires often { often ≤ 2 ^ 44 }
    requires parts { AreParts parts.now }
    ensures { amounts.new ≡ raised often (listed parts.now) moves.now amounts.old }
{
    for i in 0..moves.len() {
        amounts[i] = raised(amounts[i], often, made(parts, &moves[i]));
    }
}

/// The moves that are made, and how often.
pub fn parts_of(alloc: Global, moves: &[Move], amounts: &[u128]) -> Result<Vec<Part>, AllocError>
    requires long { length amounts.now ≡ length moves.now }
    requires fits { All (λ u. u < 2 ^ 127) amounts.now }
    ensures { IfOk result (λ v. v.items ≡ parts_of moves.now amounts.now) }
{
    let mut parts = Vec::new(alloc);
    for i in 0..moves.len() {
        push_part(&mut parts, &moves[i], amounts[i])?;
    }
    Ok(parts)
}
