// The flow in which answers have weights.
ghost use Rattle.std.specs.Prelude.{◌≡◌, ◌<◌, ◌≤◌, ◌^◌, length, slice_index_or, IfOk, All};
ghost use Rattle.rv_core.specs.Table.{table_of};
ghost use Rattle.simplex_rounds.specs.Weighted.{numerator};
ghost use Rattle.path_conditions.specs.Walking.{IsSearchable};
ghost use Rattle.path_fact_columns.specs.Answers.{AreParts, parts_at};
ghost use Rattle.path_fact_columns.specs.Adding.{no_multipliers, mixed_parts, AreAsked, AreWeights};

use crate::adding::{add_flow, parts_of};
use crate::answering::{Answer, answer_at};
use code_flow_system::{LoopShape, Part, Span, System};
use path_fact_walks::{Multiplied, block};
use rv_core::Costs;
use simplex_rounds::{Multipliers, Weight};
use std::alloc::{AllocError, Global};

/// A system, and the multipliers at which its columns were found.
#[derive(Clone, Copy)]
pub struct Found<'a> {
    pub system: &'a System,
    pub shapes: &'a [LoopShape],
    pub spans: &'a [Span],
    pub costs: &'a Costs,
    pub asked: &'a [Multipliers],
}

/// The answer at the multipliers of that number, found again.
fn found_again(alloc: Global, found: Found, number: usize) -> Result<Answer, AllocError>
    requires searchable { IsSearchable (table_of found.costs.now) found.system.now found.shapes.now found.spans.now }
    requires asked { All (AreAsked (table_of found.costs.now) found.system.now found.shapes.now found.spans.now) found.asked.now }
    requires within { number < length found.asked.now }
    ensures parts { IfOk result (λ a. AreParts a.parts) }
    ensures value { IfOk result (λ a. a.parts ≡ parts_at (table_of found.entry.costs.now) found.entry.system.now found.entry.shapes.now found.entry.spans.now (slice_index_or found.entry.asked.now number no_multipliers).scale (slice_index_or found.entry.asked.now number no_multipliers).facts) }
{
    let multipliers = &found.asked[number];
    let scale = multipliers.scale as u64;
    let facts = multipliers.facts.as_slice();
    let multiplied = Multiplied {
        system: found.system,
        shapes: found.shapes,
        costs: found.costs,
        scale,
        facts,
        low: block(scale, facts),
    };
    answer_at(alloc, multiplied, found.spans)
}

/// A weight's numerator over a common denominator.
fn often(all: u128, weight: Weight) -> u128
    requires bottom { 0 < weight.bottom }
    requires narrow { numerator all weight ≤ 2 ^ 44 }
    ensures { result ≡ numerator all weight }
{
    weight.top * (all / weight.bottom)
}

/// The flow in which the answers at these multipliers have these weights, over a common denominator. Each is found again.
pub fn mixed(
    alloc: Global,
    found: Found,
    all: u128,
    weights: &[Weight],
) -> Result<Vec<Part>, AllocError>
    requires searchable { IsSearchable (table_of found.costs.now) found.system.now found.shapes.now found.spans.now }
    requires asked { All (AreAsked (table_of found.costs.now) found.system.now found.shapes.now found.spans.now) found.asked.now }
    requires weights { AreWeights (length found.asked.now) all weights.now }
    ensures { IfOk result (λ v. v.items ≡ mixed_parts (table_of found.entry.costs.now) found.entry.system.now found.entry.shapes.now found.entry.spans.now found.entry.asked.now all weights.now) }
{
    let moves = found.system.moves();
    let mut amounts = vec![in alloc; 0; moves.len()]?;
    for k in 0..weights.len() {
        let weight = weights[k];
        let answer = found_again(alloc, found, weight.column)?;
        add_flow(
            &mut amounts,
            moves,
            answer.parts.as_slice(),
            often(all, weight),
        );
    }
    parts_of(alloc, moves, &amounts)
}
