// The steps of a function.
ghost use Rattle.std.specs.Prelude.{◌≡◌, ◌<◌, ◌++◌, ◌∷◌, ◌+ℤ◌, [], true, length, IfOk, OnOk, if◌then◌else◌};
ghost use Rattle.code_flow_system.specs.Systems.{AreAscending};
ghost use Rattle.code_flow_system.specs.Shapes.{onward};
ghost use Rattle.loop_worths.specs.Sizes.{IsSmall, HaveSmallPrices};
ghost use Rattle.path_places.specs.Places.{on_place, call_worth, step_of};
ghost use Rattle.path_places.specs.PlaceLaws.{function_steps};
ghost use Rattle.path_walks.specs.Prices.{price_in};
ghost use Rattle.path_walks.specs.Opens.{AddressesRise, GoesBack, is_open, HasLoops};

use crate::open::{is_open, onward};
use crate::place::place_of;
use crate::priced::Priced;
use code_flow_system::{Move, Span};
use loop_walks::Step;
use std::alloc::{AllocError, Global};

/// The place at which a move goes on; where it goes nowhere, the one behind all.
fn on_place(moves: &[Move], step: &Move) -> usize
    requires { AreAscending moves.now }
    ensures { result ≡ on_place moves.now (onward step.now) }
{
    match onward(step) {
        Some(to) => place_of(moves, to),
        None => moves.len(),
    }
}

/// What a call adds: the worth of the place where the called function begins.
fn call_worth(moves: &[Move], worths: &[i128], step: &Move) -> i128
    requires ascending { AreAscending moves.now }
    requires long { length moves.now < length worths.now }
    ensures { result ≡ call_worth moves.now worths.now step.now.to step.now.behind }
{
    match (step.to, step.behind) {
        (Some(to), Some(_)) => worths[place_of(moves, to)],
        _ => 0,
    }
}

/// A sum that fits.
fn plus(a: i128, b: i128) -> i128
    requires { IsSmall (a +ℤ b) }
    ensures { result ≡ a +ℤ b }
{
    a + b
}

/// A move at a price as a step.
fn step_of(moves: &[Move], worths: &[i128], price: i128, step: &Move) -> Step
    requires ascending { AreAscending moves.now }
    requires long { length moves.now < length worths.now }
    requires small { IsSmall (price +ℤ call_worth moves.now worths.now step.now.to step.now.behind) }
    ensures { result ≡ step_of (λ m. price) moves.now worths.now step.now }
{
    Step {
        at: place_of(moves, step.at),
        on: on_place(moves, step),
        price: plus(price, call_worth(moves, worths, step)),
    }
}

/// Adds the step of a move at a price, if a walk goes through its address.
fn add_step(
    steps: &mut Vec<Step>,
    priced: Priced,
    worths: &[i128],
    step: &Move,
    price: i128,
) -> Result<(), AllocError>
    requires headers { AddressesRise (λ l. l.header) priced.shapes.now }
    requires back { GoesBack priced.shapes.now step.now }
    requires long { length priced.system.now.moves < length worths.now }
    requires small { is_open priced.system.now.claims priced.shapes.now step.now.at ≡ true → IsSmall (price +ℤ call_worth priced.system.now.moves worths.now step.now.to step.now.behind) }
    ensures { OnOk result (steps.new.items ≡ steps.old.items ++ (if is_open priced.entry.system.now.claims priced.entry.shapes.now step.now.at then step_of (λ m. price) priced.entry.system.now.moves worths.now step.now ∷ [] else [])) }
{
    let moves = priced.system.moves();
    if is_open(priced.system.claims(), priced.shapes, step) {
        steps.push(step_of(moves, worths, price, step))?;
    }
    Ok(())
}

/// The steps of a function, at the worths of those before it.
pub fn steps(
    alloc: Global,
    priced: Priced,
    span: Span,
    worths: &[i128],
) -> Result<Vec<Step>, AllocError>
    requires loops { HasLoops priced.system.now priced.shapes.now }
    requires prices { length priced.prices.now ≡ length priced.system.now.moves }
    requires long { length priced.system.now.moves < length worths.now }
    requires small { HaveSmallPrices (function_steps priced.system.now priced.shapes.now (price_in priced.system.now.moves priced.prices.now) worths.now span) }
    ensures { IfOk result (λ v. v.items ≡ function_steps priced.entry.system.now priced.entry.shapes.now (price_in priced.entry.system.now.moves priced.entry.prices.now) worths.now span) }
{
    let moves = priced.system.moves();
    let first = place_of(moves, span.first);
    let end = place_of(moves, span.end);
    let mut steps = Vec::new(alloc);
    for i in first..end {
        add_step(&mut steps, priced, worths, &moves[i], priced.prices[i])?;
    }
    Ok(steps)
}
