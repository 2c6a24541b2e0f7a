// The flow of a function.
ghost use Rattle.std.specs.Prelude.{◌≡◌, ◌-◌, ◌<◌, length, IfOk, OnOk};
ghost use Rattle.loop_walks.specs.Levels.{level_of, ground};
ghost use Rattle.loop_walks.specs.Rows.{AreSteps, AreLoops, HaveNone};
ghost use Rattle.loop_flows.specs.Passes.{spread};
ghost use Rattle.loop_flows.specs.Turns.{is_tight, turnings};
ghost use Rattle.loop_worths.specs.Sizes.{StaysSmall};
ghost use Rattle.loop_flow_counts.specs.Made.{HasTurned};

use crate::back::Back;
use crate::pass::end_pass;
use crate::turns::turn_all;
use loop_walks::Code;
use loop_worths::ground;
use std::alloc::{AllocError, Global};

/// How often each step of a function is made, and each jump back that is reached, modulo 2^128.
#[derive(Drop)]
pub struct Made {
    pub counts: Vec<u128>,
    pub backs: Vec<Back>,
}

/// How often each step of a function and each jump back is made, where so much starts at each place. `worths` and
/// `weights` are those before the function is settled; after the call the worths are those of its walk to the ends, and
/// nothing is known of the amounts.
pub fn flow(
    alloc: Global,
    low: i128,
    worths: &mut [i128],
    weights: &mut [i128],
    code: Code,
    amounts: &mut [u128],
) -> Result<Made, AllocError>
    requires long { length weights.now ≡ length worths.now }
    requires amounts { length amounts.now ≡ length worths.now }
    requires some { 0 < length worths.now }
    requires steps { AreSteps (length worths.now - 1) code.steps.now }
    requires loops { AreLoops (length worths.now - 1) code.steps.now code.loops.now }
    requires none { HaveNone weights.now code.loops.now }
    requires small { StaysSmall low code.steps.now (level_of worths.now weights.now) code.loops.now }
    ensures worths { OnOk result (worths.new ≡ (ground low code.entry.steps.now (level_of worths.old weights.old) code.entry.loops.now).worths) }
    ensures weights { OnOk result (weights.new ≡ weights.old) }
    ensures made { IfOk result (λ r. HasTurned (length worths.old - 1) code.entry.steps.now (spread (is_tight (ground low code.entry.steps.now (level_of worths.old weights.old) code.entry.loops.now)) amounts.old code.entry.steps.now) (turnings low code.entry.steps.now weights.old code.entry.loops.now) r.counts.items r.backs.items) }
{
    drop(ground(alloc, low, worths, weights, code)?);
    let mut counts = end_pass(alloc, weights, worths, amounts, code.steps)?;
    let backs = turn_all(alloc, low, weights, code, amounts, &mut counts)?;
    Ok(Made { counts, backs })
}
