// What is reached from a function.

ghost use Rattle.std.specs.Prelude.{◌≡◌, ◌<◌, length, true, [], IfOk};
ghost use Rattle.std.proofs.Math.ListN.{set};
ghost use Rattle.call_graph.specs.Search.{IsInRange, Spreads, is_seen, Tells, IsRoot};
ghost use Rattle.types_calls.specs.Chains.{callees};

use std::alloc::{AllocError, Global};
use wcc_base::Items;

fn see(seen: &mut [bool], g: usize)
    requires { g < length seen.old }
    ensures { seen.new ≡ set seen.old g true }
{
    seen[g] = true;
}

fn was_seen(seen: &[bool], g: usize) -> bool
    requires { g < length seen.now }
    ensures { result ≡ is_seen seen.now g }
{
    seen[g]
}

/// Sees what is reached from a function, itself included.
pub fn spread(graph: &[Items<usize>], g: usize, seen: &mut [bool])
    requires within { g < length graph.now }
    requires size { length seen.old ≡ length graph.now }
    requires range { IsInRange graph.now }
    ensures { Spreads graph.now g [] seen.old seen.new }
{
    if was_seen(seen, g) {
        return;
    }
    see(seen, g);
    let callees = graph[g].as_slice();
    for k in callees {
        spread(graph, *k, seen);
    }
}

fn tells(graph: &[Items<usize>], f: usize, seen: &mut [bool]) -> bool
    requires within { f < length graph.now }
    requires range { IsInRange graph.now }
    requires begin { IsRoot graph.now f (callees graph.now f) seen.old }
    ensures { Tells result graph.now f }
{
    let callees = graph[f].as_slice();
    for k in callees {
        spread(graph, *k, seen);
    }
    was_seen(seen, f)
}

/// Whether a function reaches itself.
pub fn reaches_itself(graph: &[Items<usize>], f: usize, alloc: Global) -> Result<bool, AllocError>
    requires within { f < length graph.now }
    requires range { IsInRange graph.now }
    ensures { IfOk result (λ b. Tells b graph.now f) }
{
    let mut seen = vec![in alloc; false; graph.len()]?;
    Ok(tells(graph, f, &mut seen))
}
