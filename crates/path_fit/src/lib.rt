//! Whether loops and functions fit a flow system.
//!
//! A search for the greatest flow follows the nest of loops, from the inmost out, and the functions from callees to
//! callers. `loops_fit` tests what such a search rests on: the loops are those of the claims, their ranges nest, each is
//! entered at its header and left for it by its back jump alone (a reducible flow graph: Aho, Lam, Sethi and Ullman 2007,
//! 9.6), no jump back is the header of another loop, all other moves go to higher addresses, and functions hold the address
//! where they begin, are apart, are left by calls and returns alone, and call those alone that stand before them. It is
//! proved to be exactly that.
//!
//! The test takes no memory. Where ranges and functions stand in the order of their addresses, each address is looked at
//! once for each loop around it, and each look-up is by halving; in any other order ranges and functions are compared
//! pair by pair.
//!
//! The crate knows nothing of costs, of certificates and of how a search goes.
#![tactic(auto)]

ghost use Rattle.std.specs.Prelude.{◌≡◌, ◌↔◌, true};
ghost use Rattle.path_fit.specs.Fitting.{LoopsFit};

mod loops;
mod nest;
mod spans;

use code_flow_system::{LoopShape, Span, System};

/// Whether loops and functions fit a system.
pub fn loops_fit(system: &System, shapes: &[LoopShape], spans: &[Span]) -> bool
    ensures { (result ≡ true) ↔ LoopsFit system.now shapes.now spans.now }
{
    loops::fit(system, shapes) && spans::fit(system, spans)
}
