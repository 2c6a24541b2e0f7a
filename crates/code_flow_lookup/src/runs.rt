// What stands at one address in an ascending list.
ghost use Rattle.std.specs.Prelude.{◌≡◌};
ghost use Rattle.std.specs.List.Sorted.{IsNonDecreasingBy};
ghost use Rattle.code_flow_system.specs.Systems.{AreAscending};
ghost use Rattle.code_flow_system.specs.Certificates.{AddressesAscend, PartsAscend};
ghost use Rattle.code_flow_lookup.specs.Runs.{those_at};

use code_flow_system::{Arrival, Mention, Move, Part};

/// The moves of an address.
pub fn moves_at(moves: &[Move], at: u32) -> &[Move]
    requires { AreAscending moves.now }
    ensures { result.now ≡ those_at (λ m. m.at) at moves.now }
{
    let start = moves.partition_point(|m| m.at < at);
    let rest = &moves[start..];
    let count = rest.partition_point(|m| m.at <= at);
    &rest[..count]
}

/// The potentials that are given for an address: one, or none.
pub fn potentials_at(potentials: &[(u32, i128)], at: u32) -> &[(u32, i128)]
    requires { AddressesAscend potentials.now }
    ensures { result.now ≡ those_at (λ t. t.0) at potentials.now }
{
    let start = potentials.partition_point(|t| t.0 < at);
    let rest = &potentials[start..];
    let count = rest.partition_point(|t| t.0 <= at);
    &rest[..count]
}

/// The parts of a flow at an address.
pub fn parts_at(parts: &[Part], at: u32) -> &[Part]
    requires { PartsAscend parts.now }
    ensures { result.now ≡ those_at (λ p. p.at) at parts.now }
{
    let start = parts.partition_point(|p| p.at < at);
    let rest = &parts[start..];
    let count = rest.partition_point(|p| p.at <= at);
    &rest[..count]
}

/// The arrivals at an address.
pub fn arrivals_at(arrivals: &[Arrival], at: u32) -> &[Arrival]
    requires { IsNonDecreasingBy (λ a. a.to) arrivals.now }
    ensures { result.now ≡ those_at (λ a. a.to) at arrivals.now }
{
    let start = arrivals.partition_point(|a| a.to < at);
    let rest = &arrivals[start..];
    let count = rest.partition_point(|a| a.to <= at);
    &rest[..count]
}

/// The mentions of an address.
pub fn mentions_at(mentions: &[Mention], at: u32) -> &[Mention]
    requires { IsNonDecreasingBy (λ m. m.at) mentions.now }
    ensures { result.now ≡ those_at (λ m. m.at) at mentions.now }
{
    let start = mentions.partition_point(|m| m.at < at);
    let rest = &mentions[start..];
    let count = rest.partition_point(|m| m.at <= at);
    &rest[..count]
}
