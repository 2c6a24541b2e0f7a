// The moves of what a walk has seen.
ghost use Rattle.std.specs.Prelude.{◌≡◌, ◌∷◌, ◌++◌, [], length, OnOk, IfOk};
ghost use Rattle.std.specs.List.Sorted.{IsSorted};
ghost use Rattle.std.specs.Ordering.{nat_cmp};
ghost use Rattle.code_flow_system.specs.Moves.{move, moves_on, moves_at, code_by};
ghost use Rattle.code_flow.specs.Places.{all_places};
ghost use Rattle.code_flow.specs.Faults.{collected};

use crate::places::address;
use crate::ways::{behind, way};
use code_flow_system::{Move, Way};
use rv_core::{Image, Instr};
use std::alloc::Global;
use wcc_base::Memory;

/// Adds one move.
fn add(moves: &mut Vec<Move>, step: Move) -> Result<(), Memory>
    ensures { OnOk result (moves.new.items ≡ moves.old.items ++ step ∷ []) }
{
    moves.push(step)?;
    Ok(())
}

/// A move of an instruction.
fn step(at: u32, number: u8, instr: &Instr, to: Option<u32>, back: Option<u32>) -> Move
    ensures { result ≡ move at number instr.now to back }
{
    Move {
        at,
        number,
        instr: *instr,
        to,
        behind: back,
    }
}

/// Adds the moves of an instruction that goes on so.
fn add_way(moves: &mut Vec<Move>, way: Way, at: u32, instr: &Instr) -> Result<(), Memory>
    ensures { OnOk result (moves.new.items ≡ moves.old.items ++ moves_on way at instr.now) }
{
    match way {
        Way::Next => add(moves, step(at, 0, instr, Some(behind(at)), None)),
        Way::Branches(to) => {
            add(moves, step(at, 0, instr, Some(behind(at)), None))?;
            add(moves, step(at, 1, instr, Some(to), None))
        }
        Way::Jumps(to) => add(moves, step(at, 0, instr, Some(to), None)),
        Way::Calls(to) => add(moves, step(at, 0, instr, Some(to), Some(behind(at)))),
        Way::Ends => add(moves, step(at, 0, instr, None, None)),
        Way::Strays => Ok(()),
    }
}

/// Adds the moves of an address.
fn add_moves(moves: &mut Vec<Move>, image: &Image, exits: &[u32], at: u32) -> Result<(), Memory>
    requires { IsSorted nat_cmp exits.now }
    ensures { OnOk result (moves.new.items ≡ moves.old.items ++ moves_at (code_by image.now exits.now) at) }
{
    match image.instruction(at) {
        Some(instr) => {
            let way = way(image, exits, at, &instr);
            add_way(moves, way, at, &instr)
        }
        None => Ok(()),
    }
}

/// The moves of all marked places, in their order.
pub fn collect(
    alloc: Global,
    image: &Image,
    exits: &[u32],
    marks: &[bool],
) -> Result<Vec<Move>, Memory>
    requires sorted { IsSorted nat_cmp exits.now }
    requires long { length marks.now ≡ all_places }
    ensures { IfOk result (λ v. v.items ≡ collected (code_by image.now exits.now) 0 marks.now) }
{
    let mut moves = Vec::new(alloc);
    for place in 0..marks.len() {
        if marks[place] {
            add_moves(&mut moves, image, exits, address(place))?;
        }
    }
    Ok(moves)
}
