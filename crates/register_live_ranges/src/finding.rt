// The intervals of all registers of a program.
ghost use Rattle.std.specs.Prelude.{◌≡◌, ◌∷◌, [], length, IfOk, slice_set};
ghost use Rattle.low_ir.specs.Programs.{low_of};
ghost use Rattle.low_ir.specs.View.{function_of};
ghost use Rattle.register_live_ranges.specs.Found.{AreFound, IsReading};
ghost use Rattle.register_live_ranges.specs.Intervals.{AreIntervals, AreIntervalsOf, interval_in, parameters_widened};

use super::accesses::{accesses, are_countable};
use super::interval::{Interval, widened};
use super::lives::Live;
use super::reading::Reading;
use super::sources::sources;
use super::walk::Walk;
use low_ir::{Function, Low};
use std::alloc::Global;
use wcc_base::{Items, Memory};

/// What is found of each register, without its place as a parameter.
fn found(alloc: Global, reading: &Reading<'_>) -> Result<Vec<Option<Interval>>, Memory>
    requires { IsReading reading.now }
    ensures size { IfOk result (λ found. length found.items ≡ reading.now.function.now.registers) }
    ensures found { IfOk result (λ found. AreFound reading.now reading.now.function.now.registers found.items) }
{
    let mut walk = Walk::new(alloc, reading.function.blocks.len())?;
    let mut found = Vec::new(alloc);
    for register in 0..reading.function.registers {
        found.push(walk.interval(reading, register)?)?;
    }
    Ok(found)
}

fn interval_in(intervals: &[Option<Interval>], register: u32) -> Option<Interval>
    ensures { result ≡ interval_in intervals.now register }
{
    match intervals.get(register as usize) {
        None => None,
        Some(interval) => *interval,
    }
}

fn set_interval(intervals: &mut Vec<Option<Interval>>, register: usize, new: Option<Interval>)
    ensures { intervals.new.items ≡ slice_set intervals.old.items register new }
{
    if let Some(interval) = intervals.get_mut(register) {
        *interval = new;
    }
}

fn widen(intervals: &mut Vec<Option<Interval>>, register: u32)
    ensures { intervals.new.items ≡ parameters_widened intervals.old.items (register ∷ []) }
{
    let interval = interval_in(intervals.as_slice(), register);
    set_interval(intervals, register as usize, Some(widened(interval, 0)));
}

/// Parameters are written at the first place.
fn widen_parameters(intervals: &mut Vec<Option<Interval>>, parameters: &[u32])
    ensures { intervals.new.items ≡ parameters_widened intervals.old.items parameters.now }
{
    for parameter in parameters {
        widen(intervals, *parameter);
    }
}

/// The interval of each register of a function: from its least place to its greatest. A register has a place where it is
/// written, and where its value may still be read behind it; parameters are written at the first place.
pub fn intervals_of(alloc: Global, function: &Function) -> Result<Vec<Option<Interval>>, Memory>
    ensures { IfOk result (λ intervals. AreIntervalsOf (function_of function.now) intervals.items) }
{
    if !are_countable(&function.blocks) {
        return Err(Memory);
    }
    let accesses = accesses(alloc, function)?;
    let sources = sources(alloc, &function.blocks)?;
    let reading = Reading {
        function,
        accesses: accesses.as_slice(),
        sources: sources.as_slice(),
    };
    let mut intervals = found(alloc, &reading)?;
    widen_parameters(&mut intervals, &function.parameters);
    Ok(intervals)
}

/// The intervals of the registers of a program.
pub fn live(alloc: Global, code: &Low) -> Result<Live, Memory>
    ensures { IfOk result (λ l. AreIntervals (low_of code.now) l) }
{
    let mut functions = Vec::new(alloc);
    for function in &code.functions {
        functions.push(Items::new(intervals_of(alloc, function)?))?;
    }
    Ok(Live::new(functions))
}
