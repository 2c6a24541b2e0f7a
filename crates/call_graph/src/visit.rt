// A search in depth.

ghost use Rattle.std.specs.Prelude.{◌≡◌, ◌<◌, length};
ghost use Rattle.std.proofs.Math.ListN.{set};
ghost use Rattle.call_graph.specs.Search.{IsSound, IsPath, IsPathTo, IsInRange, Visits, IsHigher, mark_of};

use super::graph::{Mark, Stop};
use wcc_base::Items;

fn mark(marks: &mut [Mark], f: usize, m: Mark)
    requires { f < length marks.old }
    ensures { marks.new ≡ set marks.old f m }
{
    marks[f] = m;
}

fn mark_at(marks: &[Mark], f: usize) -> Mark
    requires { f < length marks.now }
    ensures { result ≡ mark_of marks.now f }
{
    marks[f]
}

fn higher(rank: u32, below: u32) -> Result<u32, Stop>
    ensures { IsHigher result rank below }
{
    if below < rank {
        return Ok(rank);
    }
    match below.checked_add(1) {
        Some(more) => Ok(more),
        None => Err(Stop::Memory),
    }
}

/// The rank of a function.
#[cycle(search)]
pub fn visit(graph: &[Items<usize>], f: usize, marks: &mut [Mark]) -> Result<u32, Stop>
    requires within { f < length graph.now }
    requires size { length marks.old ≡ length graph.now }
    requires range { IsInRange graph.now }
    requires sound { IsSound graph.now marks.old }
    requires path { IsPath graph.now marks.old f }
    ensures { Visits result graph.now f marks.old marks.new }
{
    match mark_at(marks, f) {
        Mark::Done(rank) => return Ok(rank),
        Mark::Open => return Err(Stop::Cycle(f)),
        Mark::New => {}
    }
    mark(marks, f, Mark::Open);
    match visit_all(graph, f, marks) {
        Ok(rank) => {
            mark(marks, f, Mark::Done(rank));
            Ok(rank)
        }
        Err(stop) => Err(stop),
    }
}

/// The rank of a function that has been opened.
#[cycle(search)]
fn visit_all(graph: &[Items<usize>], f: usize, marks: &mut [Mark]) -> Result<u32, Stop>
    requires within { f < length graph.now }
    requires size { length marks.old ≡ length graph.now }
    requires range { IsInRange graph.now }
    requires sound { IsSound graph.now marks.old }
    requires path { IsPathTo graph.now marks.old f }
    ensures { Visits result graph.now f marks.old marks.new }
{
    let mut rank = 0;
    let callees = graph[f].as_slice();
    for g in callees {
        match visit(graph, *g, marks) {
            Ok(below) => {
                rank = higher(rank, below)?;
            }
            Err(stop) => return Err(stop),
        }
    }
    Ok(rank)
}
