// Places of addresses, by halving.
ghost use Rattle.std.specs.Prelude.{◌≡◌, ◌+◌, ◌≤◌, true, false, nat_lt, nat_le, length};
ghost use Rattle.std.specs.List.Sorted.{IsNonDecreasingBy, IsPartitionPoint};
ghost use Rattle.code_flow_system.specs.Systems.{AreAscending};
ghost use Rattle.path_places.specs.Places.{place_of, before};
ghost use Rattle.path_walks.specs.Opens.{AddressesRise};

use code_flow_system::{LoopShape, Move};
use loop_walks::Step;

/// How many moves begin before an address.
pub fn place_of(moves: &[Move], at: u32) -> usize
    requires { AreAscending moves.now }
    ensures value { result ≡ place_of moves.now at }
    ensures bound { result ≤ length moves.now }
    ensures point { IsPartitionPoint (λ m. nat_lt m.at at ≡ true) (λ m. nat_lt m.at at ≡ false) moves.now result }
{
    moves.partition_point(|step| step.at < at)
}

/// How many moves begin at an address or before it.
pub(crate) fn place_behind(moves: &[Move], at: u32) -> usize
    requires { AreAscending moves.now }
    ensures value { result ≡ place_of moves.now (at + 1) }
    ensures from { place_of moves.now at ≤ result }
    ensures bound { result ≤ length moves.now }
    ensures point { IsPartitionPoint (λ m. nat_le m.at at ≡ true) (λ m. nat_le m.at at ≡ false) moves.now result }
{
    moves.partition_point(|step| step.at <= at)
}

/// How many steps begin before a place.
pub(crate) fn before(place: usize, steps: &[Step]) -> usize
    requires { IsNonDecreasingBy (λ m. m.at) steps.now }
    ensures { result ≡ before place steps.now }
{
    steps.partition_point(|step| step.at < place)
}

/// How many loops have a header before an address.
pub(crate) fn loops_before(shapes: &[LoopShape], at: u32) -> usize
    requires { AddressesRise (λ l. l.header) shapes.now }
    ensures bound { result ≤ length shapes.now }
    ensures point { IsPartitionPoint (λ l. nat_lt l.header at ≡ true) (λ l. nat_lt l.header at ≡ false) shapes.now result }
{
    shapes.partition_point(|shape| shape.header < at)
}
