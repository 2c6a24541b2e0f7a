// Who calls whom.
ghost use Rattle.std.specs.Prelude.{◌≡◌, ◌<◌, ◌++◌, ◌∷◌, [], IfOk, OnOk, filter};
ghost use Rattle.types_calls.specs.Calls.{calls_below, function_calls, graph_of};
ghost use Rattle.types_tree.specs.View.{function_of, program_of};
ghost use Rattle.call_graph.specs.Search.{IsInRange};

use super::calls::{add_items, add_params};
use std::alloc::{AllocError, Global};
use types_tree::external::Function;
use types_tree::program::Program;
use wcc_base::Items;

/// All calls in a function.
fn function_calls(function: &Function, alloc: Global) -> Result<Vec<usize>, AllocError>
    ensures { IfOk result (λ calls. calls.items ≡ function_calls (function_of function.now)) }
{
    let mut calls = Vec::new(alloc);
    add_params(&function.params, &mut calls)?;
    add_items(&function.body, &mut calls)?;
    Ok(calls)
}

/// Those calls that are of one of so many functions.
fn calls_below(count: usize, calls: &[usize], alloc: Global) -> Result<Vec<usize>, AllocError>
    ensures { IfOk result (λ kept. kept.items ≡ calls_below count calls.now) }
{
    calls.iter().copied().filter(|g| *g < count).collect(alloc)
}

fn push(
    graph: &mut Vec<Items<usize>>,
    count: usize,
    function: &Function,
    alloc: Global,
) -> Result<(), AllocError>
    ensures { OnOk result (graph.new.items ≡ graph.old.items ++ calls_below count (function_calls (function_of function.now)) ∷ []) }
{
    let calls = function_calls(function, alloc)?;
    let kept = calls_below(count, &calls, alloc)?;
    graph.push(Items::new(kept))?;
    Ok(())
}

/// For each function those that it calls.
pub fn graph(program: &Program, alloc: Global) -> Result<Vec<Items<usize>>, AllocError>
    ensures same { IfOk result (λ graph. graph.items ≡ graph_of (program_of program.now)) }
    ensures range { IfOk result (λ graph. IsInRange graph.items) }
{
    let functions = program.functions.as_slice();
    let count = functions.len();
    let mut graph = Vec::new(alloc);
    for function in functions {
        push(&mut graph, count, function, alloc)?;
    }
    Ok(graph)
}

/// What is known of a function.
#[derive(Copy, Clone)]
pub enum Mark {
    New,
    Open,
    Done(u32),
}

/// Why a function has no rank.
pub enum Stop {
    Memory,
    Cycle(usize),
}
