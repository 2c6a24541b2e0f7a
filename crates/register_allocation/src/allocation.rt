// Places for the registers of a program.
ghost use Rattle.std.specs.Prelude.{◌≡◌, map, IfOk};
ghost use Rattle.low_ir.specs.Places.{placing_of};
ghost use Rattle.low_ir.specs.Placings.{placings_of};
ghost use Rattle.low_ir.specs.Programs.{low_of};
ghost use Rattle.low_ir.specs.View.{function_of};
ghost use Rattle.register_live_ranges.specs.Intervals.{AreIntervals, AreIntervalsOf};
ghost use Rattle.register_allocation.specs.Fitting.{ArePlacings, HaveIntervals, IsMaskedPlacing, IsPlacing, IsScannedPlacing};
ghost use Rattle.register_allocation.specs.Orders.{AreInOrder};
ghost use Rattle.register_allocation.specs.Spills.{HaveFewSlots, SpillWhereCrowded};

use super::masks::masks;
use super::order::{Lasting, in_order};
use super::scan::{Scan, scan_all};
use super::tastes::{Known, Tastes};
use low_ir::{Function, Low, LowReg, Placing};
use register_live_ranges::{Interval, Live};
use std::alloc::Global;
use wcc_base::Memory;

/// With the masks of calls.
fn masked(
    alloc: Global,
    function: &Function,
    order: &[Lasting],
    scan: Scan,
) -> Result<Placing, Memory>
    ensures { IfOk result (λ p. IsMaskedPlacing (function_of function.now) order.now scan (placing_of p)) }
{
    match masks(alloc, order, scan.places(), &function.blocks) {
        Ok(kept) => Ok(scan.into_placing(kept)),
        Err(memory) => {
            drop(scan);
            Err(memory)
        }
    }
}

fn placing_in(
    alloc: Global,
    function: &Function,
    order: &[Lasting],
    known: &Known,
) -> Result<Placing, Memory>
    requires { AreInOrder (function_of function.now).size order.now }
    ensures { IfOk result (λ p. IsScannedPlacing (function_of function.now) order.now (placing_of p)) }
{
    let tastes = Tastes::new(alloc, function, order, known)?;
    let scan = scan_all(alloc, order, function, &tastes)?;
    let placing = masked(alloc, function, order, scan)?;
    Ok(placing)
}

/// Places for the registers of a function.
fn place_function(
    alloc: Global,
    function: &Function,
    intervals: &[Option<Interval>],
    known: &Known,
) -> Result<Placing, Memory>
    requires { AreIntervalsOf (function_of function.now) intervals.now }
    ensures { IfOk result (λ p. IsPlacing (function_of function.now) (placing_of p)) }
{
    let order = in_order(alloc, intervals, function.registers)?;
    let placing = placing_in(alloc, function, &order, known)?;
    Ok(placing)
}

/// Places for the registers of functions, of a program or not. Each placing fits its function.
pub fn placings(alloc: Global, functions: &[Function], live: &Live) -> Result<Vec<Placing>, Memory>
    requires { HaveIntervals (map function_of functions.now) live.now }
    ensures { IfOk result (λ pls. ArePlacings (map function_of functions.now) (map placing_of pls.items)) }
{
    let mut known = Known::new(alloc);
    let mut placings = Vec::new(alloc);
    for (number, function) in functions.iter().enumerate() {
        let placing = place_function(alloc, function, live.of(number), &known)?;
        known.note(alloc, function, &placing)?;
        placings.push(placing)?;
    }
    Ok(placings)
}

/// Machine registers for the registers of a program, and slots where there are too few: registers that live together have
/// different places. A register has a slot only where one of the places of its own interval is covered by more than 24 intervals.
pub fn allocate(alloc: Global, low: Low, live: &Live) -> Result<LowReg, Memory>
    requires { AreIntervals (low_of low) live.now }
    ensures low { IfOk result (λ r. r.low ≡ low) }
    ensures spills { IfOk result (λ r. SpillWhereCrowded (low_of low) (placings_of r)) }
    ensures slots { IfOk result (λ r. HaveFewSlots (low_of low) (placings_of r)) }
{
    let placings = placings(alloc, &low.functions, live)?;
    Ok(LowReg { low, placings })
}
