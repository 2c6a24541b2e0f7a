// How often the nodes of functions are executed at most, those that are called before those that call them.
ghost use Rattle.std.specs.Prelude.{◌≡◌, ◌<◌, ◌≤◌, ◌+◌, ℕ, length, IfOk, Some};
ghost use Rattle.std.proofs.Math.ListN.{get_or, set};
ghost use Rattle.types_calls.specs.Calls.{graph_of};
ghost use Rattle.types_calls.specs.Chains.{AreRanks};
ghost use Rattle.facts_definitions.specs.Most.{cut, function_most, most_of};
ghost use Rattle.types_tree.specs.View.{function_of, program_of};
ghost use Rattle.facts_most.specs.Items.{calls_by};
ghost use Rattle.facts_most.specs.Ranked.{IsMostBelow};

use super::declared::list_most;
use super::executed::items_most;
use super::sums::add;
use facts_definitions::Bounds;
use std::alloc::{AllocError, Global};
use types_tree::external::Function;
use types_tree::program::Program;

/// Of a function's node, where a call of a function comes to its number in `calls`.
fn function_most(function: &Function, bounds: &[Bounds], calls: &[u64]) -> u64
    ensures { result ≡ cut (function_most bounds.now (calls_by calls.now) (Some (function_of function.now))) }
{
    let params = list_most(&function.params, calls);
    let body = items_most(&function.body, bounds, calls);
    add(1, add(params, add(1, body)))
}

fn set(most: &mut [u64], f: usize, number: u64)
    requires { f < length most.old }
    ensures { most.new ≡ set most.old f number }
{
    most[f] = number;
}

fn rank_of(ranks: &[u32], f: usize) -> u32
    ensures { result ≡ get_or ranks.now f 0 }
{
    if f < ranks.len() {
        return ranks[f];
    }
    0
}

/// The greatest rank.
fn greatest(ranks: &[u32]) -> u32
    ensures { (f : ℕ) → get_or ranks.now f 0 ≤ result }
{
    let mut found = 0;
    for rank in ranks {
        found = (*rank).max(found);
    }
    found
}

/// The functions of a rank, once all of lower ranks are done.
fn fill(program: &Program, bounds: &[Bounds], ranks: &[u32], rank: u32, most: &mut [u64])
    requires ranked { AreRanks (graph_of (program_of program.now)) ranks.now }
    requires below { IsMostBelow (program_of program.now) bounds.now ranks.now rank most.old }
    ensures { IsMostBelow (program_of program.now) bounds.now ranks.now (rank + 1) most.new }
{
    let functions = program.functions.as_slice();
    for f in 0..functions.len() {
        if rank_of(ranks, f) == rank {
            let found = function_most(&functions[f], bounds, most);
            set(most, f, found);
        }
    }
}

fn fill_all(program: &Program, bounds: &[Bounds], ranks: &[u32], most: &mut [u64])
    requires ranked { AreRanks (graph_of (program_of program.now)) ranks.now }
    requires none { IsMostBelow (program_of program.now) bounds.now ranks.now 0 most.old }
    ensures { (f : ℕ) → get_or most.new f 0 ≡ cut (most_of (program_of program.now) bounds.now ranks.now f) }
{
    let last = greatest(ranks);
    for rank in 0..last {
        fill(program, bounds, ranks, rank, most);
    }
    fill(program, bounds, ranks, last, most);
}

/// How many nodes each function executes at most, cut at 2^64 - 1, where the loops have these bounds by their numbers.
pub fn most_of_functions(
    program: &Program,
    bounds: &[Bounds],
    ranks: &[u32],
    alloc: Global,
) -> Result<Vec<u64>, AllocError>
    requires { AreRanks (graph_of (program_of program.now)) ranks.now }
    ensures { IfOk result (λ most. (f : ℕ) → get_or most.items f 0 ≡ cut (most_of (program_of program.now) bounds.now ranks.now f)) }
{
    let functions = program.functions.as_slice();
    let mut most = vec![in alloc; 0; functions.len()]?;
    fill_all(program, bounds, ranks, &mut most);
    Ok(most)
}
