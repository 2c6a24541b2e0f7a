// The system of an image and claims.
ghost use Rattle.std.specs.Prelude.{◌≡◌, ℕ, IfOk, IfErr};
ghost use Rattle.std.specs.List.Sorted.{IsSorted};
ghost use Rattle.std.specs.Ordering.{nat_cmp};
ghost use Rattle.code_flow_system.specs.Claims.{is_listed};
ghost use Rattle.code_flow_system.specs.Systems.{system_of, IsSystem, IsSystemOf};
ghost use Rattle.code_flow.specs.Walks.{Found};
ghost use Rattle.code_flow.specs.CodeFaults.{IsFault};

use crate::collect::collect;
use crate::faults::{first_bad, least_no_code};
use crate::sorted::in_order;
use crate::walk::{Walk, reach};
use code_flow_system::{Claims, Move, System};
use rv_core::Image;
use std::alloc::Global;
use thiserror::Error;

/// Why an image and claims have no system.
#[derive(Debug, Drop, Error)]
pub enum CodeFault {
    #[error("claim {index} is bad")]
    BadClaim { index: u32 },
    #[error("there is no code at {at}")]
    NotCode { at: u32 },
    #[error("memory ran out")]
    Memory,
}

/// The system of these moves, with a copy of the claims.
fn finished(
    alloc: Global,
    image: &Image,
    claims: &Claims,
    moves: Vec<Move>,
) -> Result<System, CodeFault>
    requires { IsSystem (system_of image.now.entry claims.now moves.items) }
    ensures ok { IfOk result (λ s. s ≡ system_of image.now.entry claims.now moves.items) }
    ensures err { IfErr result (λ e. e ≡ CodeFault.Memory) }
{
    let claims = match claims.copy(alloc) {
        Ok(claims) => claims,
        Err(_) => return Err(CodeFault::Memory),
    };
    match System::new(alloc, image.entry(), claims, moves) {
        Ok(system) => Ok(system),
        Err(_) => Err(CodeFault::Memory),
    }
}

/// The system of what a walk has seen, where these are the exits in order.
fn system_of_walk(
    alloc: Global,
    image: &Image,
    claims: &Claims,
    exits: &[u32],
    walk: &Walk,
) -> Result<System, CodeFault>
    requires found { Found image.now claims.now walk.now }
    requires sorted { IsSorted nat_cmp exits.now }
    requires same { (a : ℕ) → is_listed exits.now a ≡ is_listed claims.now.exits a }
    ensures ok { IfOk result (IsSystemOf image.now claims.now) }
    ensures err { IfErr result (IsFault image.now claims.now) }
{
    if let Some(index) = first_bad(image, claims, walk) {
        return Err(CodeFault::BadClaim {
            index: index as u32,
        });
    }
    let moves = match collect(alloc, image, exits, &walk.marks) {
        Ok(moves) => moves,
        Err(_) => return Err(CodeFault::Memory),
    };
    if let Some(at) = least_no_code(image, exits, walk, &moves) {
        return Err(CodeFault::NotCode { at });
    }
    finished(alloc, image, claims, moves)
}

/// The system of an image and claims: the moves of all that is reached from the entry.
///
/// It is refused with the first bad claim, and where none is bad with the least reached address
/// that is no code. Want of memory may be answered at any time.
pub fn system(alloc: Global, image: &Image, claims: &Claims) -> Result<System, CodeFault>
    ensures ok { IfOk result (IsSystemOf image.now claims.now) }
    ensures err { IfErr result (IsFault image.now claims.now) }
{
    let exits = match in_order(alloc, claims.exits()) {
        Ok(exits) => exits,
        Err(_) => return Err(CodeFault::Memory),
    };
    let walk = match reach(alloc, image, &exits) {
        Ok(walk) => walk,
        Err(_) => return Err(CodeFault::Memory),
    };
    let _segments = image.segments();
    system_of_walk(alloc, image, claims, &exits, &walk)
}
