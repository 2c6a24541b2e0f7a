// What the search answers.
ghost use Rattle.std.specs.Prelude.{◌≤◌};
ghost use Rattle.code_flow_system.specs.Certificates.{IsInForm};
ghost use Rattle.code_flow_system.specs.Systems.{IsSystemOf};
ghost use Rattle.rv_core.specs.Table.{table_of};
ghost use Rattle.path_places.specs.Reached.{AreReached};
ghost use Rattle.path_conditions.specs.Bounding.{CanBound};

use crate::cases::{Case, claims, image, shapes, spans};
use crate::priced::lists_flow;
use code_flow::system;
use code_flow_answer::{Bounded, Kind};
use code_flow_system::{Claims, LoopShape, Span, System};
use dual_check::{Verdict, check};
use path_fit::loops_fit;
use path_places::systems_are_reached;
use path_search::{bound, can_bound};
use rv_core::{Costs, Image, default_costs};
use std::alloc::{AllocError, Global};
use wcc_base::Memory;

/// The default costs with a stall.
fn with_stall(stall: u32) -> Costs
    requires { stall ≤ 1000 }
{
    Costs {
        fetch_flash: 3,
        fetch_spm: 1,
        alu: 1,
        mul: 3,
        div: 34,
        load: 1,
        store: 1,
        branch: 1,
        branch_taken: 2,
        jump: 2,
        ecall: 10,
        data_flash: 3,
        data_ram: 2,
        data_spm: 1,
        stall,
    }
}

fn costs(stall: u32) -> Costs {
    if stall > 1000 {
        return default_costs();
    }
    with_stall(stall)
}

/// What a bound says that is accepted, in words.
fn told(
    alloc: Global,
    system: &System,
    costs: &Costs,
    bounded: &Bounded,
) -> Result<String, AllocError>
    requires { IsInForm system.now.claims bounded.now.cert }
{
    match (check(system, costs, &bounded.cert), bounded.kind) {
        (Verdict::Yes { cycles, greatest }, Kind::Greatest) => {
            if greatest {
                return format!(in alloc; "greatest {cycles}");
            }
            String::from_str(alloc, "not greatest")
        }
        (Verdict::Yes { .. }, Kind::Empty) => String::from_str(alloc, "empty"),
        _ => String::from_str(alloc, "not accepted"),
    }
}

/// What the search finds for a system that the walks fit.
fn bounded_answer(
    alloc: Global,
    system: &System,
    shapes: &[LoopShape],
    spans: &[Span],
    costs: &Costs,
) -> Result<String, Memory>
    requires reached { AreReached system.now }
    requires can { CanBound (table_of costs.now) system.now shapes.now spans.now }
{
    let bounded = bound(alloc, system, shapes, spans, costs)?;
    let is_there = matches!(bounded.kind, Kind::Greatest);
    let told = told(alloc, system, costs, &bounded);
    drop(bounded);
    if lists_flow(alloc, system, shapes, spans, costs, is_there)? {
        return Ok(told?);
    }
    Ok(String::from_str(alloc, "no flow at other prices")?)
}

/// What the search finds.
fn found(
    alloc: Global,
    system: &System,
    shapes: &[LoopShape],
    spans: &[Span],
    stall: u32,
) -> Result<String, Memory>
    requires { AreReached system.now }
{
    let costs = costs(stall);
    if can_bound(alloc, system, shapes, spans, &costs)? {
        return bounded_answer(alloc, system, shapes, spans, &costs);
    }
    Ok(String::from_str(alloc, "not searched")?)
}

fn fit(
    alloc: Global,
    system: &System,
    shapes: &[LoopShape],
    spans: &[Span],
) -> Result<String, Memory> {
    let answer = if loops_fit(system, shapes, spans) {
        "fit"
    } else {
        "don't fit"
    };
    Ok(String::from_str(alloc, answer)?)
}

fn system_answer(
    alloc: Global,
    asks_fit: bool,
    system: &System,
    case: &Case,
) -> Result<String, Memory>
    requires { AreReached system.now }
{
    let shapes = shapes(alloc, case)?;
    let spans = spans(alloc, case)?;
    if asks_fit {
        return fit(alloc, system, &shapes, &spans);
    }
    found(alloc, system, &shapes, &spans, case.stall)
}

// A law of a system that is found.
fn found_is_reached(image: &Image, claims: &Claims, system: &System)
    requires { IsSystemOf image.now claims.now system.now }
    ensures { AreReached system.now }
{
    systems_are_reached(image, system);
}

fn claims_answer(
    alloc: Global,
    asks_fit: bool,
    image: &Image,
    claims: &Claims,
    case: &Case,
) -> Result<String, Memory> {
    match system(alloc, image, claims) {
        Ok(system) => {
            found_is_reached(image, claims, &system);
            let answer = system_answer(alloc, asks_fit, &system, case);
            drop(system);
            answer
        }
        Err(_) => Ok(String::from_str(alloc, "no system")?),
    }
}

fn image_answer(
    alloc: Global,
    asks_fit: bool,
    image: &Image,
    case: &Case,
) -> Result<String, Memory> {
    match claims(alloc, case)? {
        Some(claims) => {
            let answer = claims_answer(alloc, asks_fit, image, &claims, case);
            drop(claims);
            answer
        }
        None => Ok(String::from_str(alloc, "no claims")?),
    }
}

/// What is said of a case: whether its loops and functions fit, or what the search finds.
pub fn answer(alloc: Global, asks_fit: bool, case: &Case) -> Result<String, Memory> {
    match image(alloc, case)? {
        Some(image) => {
            let answer = image_answer(alloc, asks_fit, &image, case);
            drop(image);
            answer
        }
        None => Ok(String::from_str(alloc, "no image")?),
    }
}
