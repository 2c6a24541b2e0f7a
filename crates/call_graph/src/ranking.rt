// All ranks.
ghost use Rattle.std.specs.Prelude.{◌≡◌, ◌<◌, length, List, ℕ, IfOk, IfErr, OnOk, ◌++◌, ◌∷◌, []};
ghost use Rattle.types_calls.specs.Calls.{graph_of};
ghost use Rattle.types_calls.specs.Chains.{AreRanks, IsCallFault, IsFirstCycle, Reaches};
ghost use Rattle.types_tree.specs.View.{program_of};
ghost use Rattle.call_graph.specs.Search.{IsInRange, IsRanking};

use super::graph::{Mark, Stop, graph};
use super::spread::reaches_itself;
use super::visit::visit;
use std::alloc::{AllocError, Global};
use types_calls::{CallFault, Ranks};
use types_tree::expression::FunctionId;
use types_tree::program::Program;
use wcc_base::Items;

/// The fault of a function; where its number has no 32 bits, memory would have run out before.
fn recursion(function: usize) -> CallFault
    ensures { (graph : List (List ℕ)) → IsFirstCycle graph function → IsCallFault result graph }
{
    match u32::try_from(function) {
        Ok(number) => CallFault::Recursion {
            function: FunctionId(number),
        },
        Err(_) => CallFault::Memory,
    }
}

fn first_cycle(graph: &[Items<usize>], met: usize, alloc: Global) -> CallFault
    requires range { IsInRange graph.now }
    requires within { met < length graph.now }
    requires cycle { Reaches graph.now met met }
    ensures { IsCallFault result graph.now }
{
    for f in 0..graph.len() {
        match reaches_itself(graph, f, alloc) {
            Ok(true) => return recursion(f),
            Ok(false) => {}
            Err(_) => return CallFault::Memory,
        }
    }
    recursion(met)
}

fn keep(ranks: &mut Vec<u32>, rank: u32) -> Result<(), AllocError>
    ensures { OnOk result (ranks.new.items ≡ ranks.old.items ++ rank ∷ []) }
{
    ranks.push(rank)?;
    Ok(())
}

fn rank_all(
    graph: &[Items<usize>],
    marks: &mut [Mark],
    alloc: Global,
) -> Result<Vec<u32>, CallFault>
    requires range { IsInRange graph.now }
    requires begin { IsRanking graph.now 0 marks.old [] }
    ensures ok { IfOk result (λ v. AreRanks graph.now v.items) }
    ensures err { IfErr result (λ e. IsCallFault e graph.now) }
{
    let mut ranks = Vec::new(alloc);
    for f in 0..graph.len() {
        match visit(graph, f, marks) {
            Ok(rank) => match keep(&mut ranks, rank) {
                Ok(()) => {}
                Err(_) => return Err(CallFault::Memory),
            },
            Err(Stop::Memory) => return Err(CallFault::Memory),
            Err(Stop::Cycle(met)) => return Err(first_cycle(graph, met, alloc)),
        }
    }
    Ok(ranks)
}

fn ranks_of(graph: &[Items<usize>], alloc: Global) -> Result<Vec<u32>, CallFault>
    requires { IsInRange graph.now }
    ensures ok { IfOk result (λ v. AreRanks graph.now v.items) }
    ensures err { IfErr result (λ e. IsCallFault e graph.now) }
{
    match vec![in alloc; Mark::New; graph.len()] {
        Ok(mut marks) => rank_all(graph, &mut marks, alloc),
        Err(_) => Err(CallFault::Memory),
    }
}

/// The ranks of all functions, or the first function that reaches itself.
pub fn ranks(alloc: Global, program: &Program) -> Result<Ranks, CallFault>
    ensures ok { IfOk result (λ r. AreRanks (graph_of (program_of program.now)) r.of_functions) }
    ensures err { IfErr result (λ e. IsCallFault e (graph_of (program_of program.now))) }
{
    match graph(program, alloc) {
        Ok(graph) => match ranks_of(&graph, alloc) {
            Ok(ranks) => Ok(Ranks {
                of_functions: Items::new(ranks),
            }),
            Err(fault) => Err(fault),
        },
        Err(_) => Err(CallFault::Memory),
    }
}
