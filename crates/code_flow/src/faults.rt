// Why there is no system.
ghost use Rattle.std.specs.Prelude.{◌≡◌, ◌-◌, ◌<◌, ◌^◌, [], length, IfSome, Some, None, nat_le, if◌then◌else◌};
ghost use Rattle.std.specs.List.Sorted.{IsSorted};
ghost use Rattle.std.specs.Ordering.{nat_cmp};
ghost use Rattle.rv_core.specs.Code.{instruction_in};
ghost use Rattle.code_flow_system.specs.Moves.{code_by, code_of};
ghost use Rattle.code_flow_system.specs.Reach.{resolves, is_resolved};
ghost use Rattle.code_flow_system.specs.Systems.{is_ecall};
ghost use Rattle.code_flow.specs.Places.{all_places};
ghost use Rattle.code_flow.specs.Walks.{way_at};
ghost use Rattle.code_flow.specs.Faults.{first_from, lesser, seen, false_exits, is_stray, first_stray, crossing_to, crossing_of, crossing, entry_crossing, first_of, first_bad, least_no_code};

use crate::flaws::first_flaw;
use crate::places::{address, place};
use crate::sorted::is_among;
use crate::walk::Walk;
use crate::ways::{instruction_before, sets_upper, way_at};
use code_flow_system::{Claims, Move, Way};
use rv_core::{Effect, Image};

/// Whether the walk has seen an address.
fn seen(walk: &Walk, at: u32) -> bool
    requires marks { length walk.now.marks.items ≡ all_places }
    requires others { IsSorted nat_cmp walk.now.others.items }
    ensures { result ≡ seen walk.now at }
{
    match place(at) {
        Some(place) => walk.marks[place],
        None => is_among(&walk.others, at),
    }
}

/// Whether an ECALL stands at an address.
fn is_ecall(image: &Image, at: u32) -> bool
    ensures { result ≡ is_ecall (instruction_in image.now at) }
{
    match image.instruction(at) {
        Some(instr) => match instr.op().row().effect {
            Effect::CallEnvironment => true,
            _ => false,
        },
        None => false,
    }
}

/// The number of the first exit that is reached and is no ECALL.
fn false_exit(image: &Image, exits: &[u32], walk: &Walk) -> Option<usize>
    requires marks { length walk.now.marks.items ≡ all_places }
    requires others { IsSorted nat_cmp walk.now.others.items }
    ensures { result ≡ first_from 0 (false_exits (code_by image.now exits.now) walk.now exits.now) }
{
    for i in 0..exits.len() {
        let at = exits[i];
        if seen(walk, at) && !is_ecall(image, at) {
            return Some(i);
        }
    }
    None
}

fn lesser(a: Option<u32>, b: Option<u32>) -> Option<u32>
    ensures { result ≡ lesser a b }
{
    match (a, b) {
        (None, b) => b,
        (Some(a), None) => Some(a),
        (Some(a), Some(b)) => Some(a.min(b)),
    }
}

fn is_stray(way: Way) -> bool
    ensures { result ≡ is_stray way }
{
    match way {
        Way::Strays => true,
        _ => false,
    }
}

/// The first address that is marked and has no moves.
fn first_stray(image: &Image, exits: &[u32], marks: &[bool]) -> Option<u32>
    requires sorted { IsSorted nat_cmp exits.now }
    requires long { length marks.now ≡ all_places }
    ensures { result ≡ first_stray (code_by image.now exits.now) 0 marks.now }
{
    for place in 0..marks.len() {
        if marks[place] && is_stray(way_at(image, exits, address(place))) {
            return Some(address(place));
        }
    }
    None
}

/// Whether a JALR stands at an address that the AUIPC before it resolves.
fn is_resolved(image: &Image, at: u32) -> bool
    ensures { result ≡ resolves (if nat_le 4 at then instruction_in image.now (at - 4) else None) (instruction_in image.now at) }
{
    let Some(instr) = image.instruction(at) else {
        return false;
    };
    match instr.op().row().effect {
        Effect::LinkRegister => match instruction_before(image, at) {
            Some(upper) => sets_upper(&upper, instr.rs1()),
            None => false,
        },
        _ => false,
    }
}

/// The place where a move arrives, where it is a resolved JALR and the move doesn't come from the
/// address before it.
fn crossing_to(image: &Image, from: u32, to: Option<u32>) -> Option<u32>
    ensures { result ≡ crossing_to (code_by image.now []) from to }
{
    match to {
        Some(to) if !(u64::from(from) + 4 == u64::from(to)) && is_resolved(image, to) => Some(to),
        _ => None,
    }
}

fn crossing_of(image: &Image, step: &Move) -> Option<u32>
    ensures { result ≡ crossing_of (code_by image.now []) step.now }
{
    lesser(
        crossing_to(image, step.at, step.to),
        crossing_to(image, step.at, step.behind),
    )
}

/// The least resolved JALR that a move enters from elsewhere than from the address before it.
fn crossing(image: &Image, moves: &[Move]) -> Option<u32>
    ensures { result ≡ crossing (code_by image.now []) moves.now }
{
    let mut least = None;
    for k in 0..moves.len() {
        least = lesser(crossing_of(image, &moves[moves.len() - 1 - k]), least);
    }
    least
}

fn entry_crossing(image: &Image) -> Option<u32>
    ensures { result ≡ entry_crossing (code_by image.now []) image.now.entry }
{
    let entry = image.entry();
    if is_resolved(image, entry) {
        Some(entry)
    } else {
        None
    }
}

fn earlier(a: Option<usize>, b: Option<usize>) -> Option<usize>
    ensures { result ≡ lesser a b }
{
    match (a, b) {
        (None, b) => b,
        (Some(a), None) => Some(a),
        (Some(a), Some(b)) => Some(a.min(b)),
    }
}

/// The number of the first bad claim.
pub fn first_bad(image: &Image, claims: &Claims, walk: &Walk) -> Option<usize>
    requires marks { length walk.now.marks.items ≡ all_places }
    requires others { IsSorted nat_cmp walk.now.others.items }
    ensures value { result ≡ first_bad (code_of image.now claims.now) walk.now claims.now }
    ensures small { IfSome result (λ n. n < 2 ^ 32) }
{
    let exits = claims.exits();
    earlier(first_flaw(claims), false_exit(image, exits, walk))
}

fn first_of(addresses: &[u32]) -> Option<u32>
    ensures { result ≡ first_of addresses.now }
{
    if addresses.is_empty() {
        None
    } else {
        Some(addresses[0])
    }
}

/// The least reached address that is no code.
pub fn least_no_code(image: &Image, exits: &[u32], walk: &Walk, moves: &[Move]) -> Option<u32>
    requires sorted { IsSorted nat_cmp exits.now }
    requires marks { length walk.now.marks.items ≡ all_places }
    ensures { result ≡ least_no_code (code_by image.now exits.now) image.now.entry walk.now moves.now }
{
    let stray = lesser(
        first_stray(image, exits, &walk.marks),
        first_of(&walk.others),
    );
    lesser(stray, lesser(entry_crossing(image), crossing(image, moves)))
}
