// Addresses that a walk goes through.
ghost use Rattle.std.specs.Prelude.{◌≡◌, ◌==◌};
ghost use Rattle.std.specs.Option.{option_to_list};
ghost use Rattle.code_flow_system.specs.Claims.{AreSound};
ghost use Rattle.code_flow_system.specs.Shapes.{onward, is_back};
ghost use Rattle.path_places.specs.Places.{is_never, is_shut, is_stop};
ghost use Rattle.path_walks.specs.Opens.{AddressesRise, GoesBack, any_at, is_open};

use crate::place::loops_before;
use code_flow_system::{Claims, LoopClaim, LoopShape, Move, Never};

/// Whether an address is that of a never claim.
fn is_never(nevers: &[Never], at: u32) -> bool
    requires { AddressesRise (λ c. c.at) nevers.now }
    ensures { result ≡ is_never nevers.now at }
{
    let place = nevers.partition_point(|never| never.at < at);
    if place == nevers.len() {
        return false;
    }
    nevers[place].at == at
}

/// Whether an address is the header of a loop that may not be entered.
fn is_shut(loops: &[LoopClaim], at: u32) -> bool
    requires { AddressesRise (λ c. c.header) loops.now }
    ensures { result ≡ is_shut loops.now at }
{
    let place = loops.partition_point(|claim| claim.header < at);
    if place == loops.len() {
        return false;
    }
    loops[place].header == at && loops[place].max == 0
}

/// Whether an address may not be visited.
pub(crate) fn is_stop(claims: &Claims, at: u32) -> bool
    requires { AreSound claims.now }
    ensures { result ≡ is_stop claims.now at }
{
    is_never(claims.nevers(), at) || is_shut(claims.loops(), at)
}

/// Where a move goes on within its function.
pub(crate) fn onward(step: &Move) -> Option<u32>
    ensures { option_to_list result ≡ onward step.now }
{
    match step.behind {
        Some(behind) => Some(behind),
        None => step.to,
    }
}

/// Whether an address is that of the jump back of the loop with that header.
fn is_back_of(shapes: &[LoopShape], header: u32, at: u32) -> bool
    requires { AddressesRise (λ l. l.header) shapes.now }
    ensures { result ≡ any_at (λ l. l.header) (λ l. l.back == at) shapes.now header }
{
    let place = loops_before(shapes, header);
    if place == shapes.len() {
        return false;
    }
    shapes[place].header == header && shapes[place].back == at
}

/// Whether a move is that of a loop's jump back.
fn is_back(shapes: &[LoopShape], step: &Move) -> bool
    requires headers { AddressesRise (λ l. l.header) shapes.now }
    requires back { GoesBack shapes.now step.now }
    ensures { result ≡ is_back shapes.now step.now.at }
{
    match onward(step) {
        None => false,
        Some(header) => is_back_of(shapes, header, step.at),
    }
}

/// Whether a walk goes through the address of a move.
pub fn is_open(claims: &Claims, shapes: &[LoopShape], step: &Move) -> bool
    requires sound { AreSound claims.now }
    requires headers { AddressesRise (λ l. l.header) shapes.now }
    requires back { GoesBack shapes.now step.now }
    ensures { result ≡ is_open claims.now shapes.now step.now.at }
{
    !(is_stop(claims, step.at) || is_back(shapes, step))
}
