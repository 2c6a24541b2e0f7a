// The moves that are made.
ghost use Rattle.std.specs.Prelude.{◌≡◌, ◌<◌, ◌^◌, ◌++◌, length, IfOk, OnOk, All};
ghost use Rattle.loop_flow_counts.specs.Wraps.{all_wrapped};
ghost use Rattle.path_flows.specs.Flows.{parts_of};
ghost use Rattle.path_flow_counts.specs.Parts.{part_if};

use code_flow_system::{Move, Part};
use std::alloc::{AllocError, Global};

/// A copy of numbers.
pub(crate) fn copied(alloc: Global, numbers: &[i128]) -> Result<Vec<i128>, AllocError>
    ensures { IfOk result (λ v. v.items ≡ numbers.now) }
{
    let mut copy = Vec::new(alloc);
    for i in 0..numbers.len() {
        copy.push(numbers[i])?;
    }
    Ok(copy)
}

/// Adds a move, if it is made.
pub fn push_part(parts: &mut Vec<Part>, step: &Move, amount: u128) -> Result<(), AllocError>
    requires { amount < 2 ^ 127 }
    ensures { OnOk result (parts.new.items ≡ parts.old.items ++ part_if step.now amount) }
{
    if amount != 0 {
        parts.push(Part {
            at: step.at,
            number: step.number,
            part: amount as i128,
        })?;
    }
    Ok(())
}

/// The moves that are made, and how often.
pub(crate) fn parts(
    alloc: Global,
    moves: &[Move],
    amounts: &[u128],
) -> Result<Vec<Part>, AllocError>
    requires long { length amounts.now ≡ length moves.now }
    requires fits { All (λ u. u < 2 ^ 127) (all_wrapped amounts.now) }
    ensures { IfOk result (λ v. v.items ≡ parts_of moves.now (all_wrapped amounts.now)) }
{
    let mut parts = Vec::new(alloc);
    for i in 0..moves.len() {
        push_part(&mut parts, &moves[i], amounts[i])?;
    }
    Ok(parts)
}
