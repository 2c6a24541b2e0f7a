// What a search says of a system.
ghost use Rattle.rv_core.specs.Table.{table_of};
ghost use Rattle.code_flow_system.specs.Certificates.{IsInForm};
ghost use Rattle.path_places.specs.Reached.{AreReached};
ghost use Rattle.path_conditions.specs.Searching.{CanSearch};

use crate::words::shown;
use code_flow_answer::{Bounded, Column, Kind};
use code_flow_system::{LoopShape, Span, System};
use dual_check::{Verdict, check};
use path_enum::bound;
use rv_core::Costs;
use std::alloc::{AllocError, Global};
use wcc_base::Memory;

/// Columns, each by its value and its totals.
fn columns_told(alloc: Global, columns: &[Column]) -> Result<String, AllocError> {
    let mut line = String::new(alloc);
    for column in columns {
        let totals = shown(alloc, column.totals.as_slice())?;
        let word = format!(in alloc; " {}{totals};", column.value)?;
        line.push_str(word.as_str())?;
    }
    Ok(line)
}

/// A bound alone, with the columns that show its cause.
fn alone(alloc: Global, kind: &str, cycles: u64, bounded: &Bounded) -> Result<String, AllocError> {
    let columns = columns_told(alloc, bounded.columns.as_slice())?;
    format!(in alloc; "{kind}, bound {cycles}, columns{columns}")
}

/// What a bound says that is accepted.
fn accepted(
    alloc: Global,
    bounded: &Bounded,
    cycles: u64,
    greatest: bool,
) -> Result<String, AllocError> {
    match bounded.kind {
        Kind::Greatest => {
            if greatest {
                return format!(in alloc; "greatest {cycles}");
            }
            String::from_str(alloc, "not greatest")
        }
        Kind::Empty => String::from_str(alloc, "empty"),
        Kind::Wide { pivot } => {
            let kind = format!(in alloc; "wide {pivot}")?;
            alone(alloc, kind.as_str(), cycles, bounded)
        }
        Kind::Spent { columns, pivots } => {
            let kind = format!(in alloc; "spent {columns} {pivots}")?;
            alone(alloc, kind.as_str(), cycles, bounded)
        }
    }
}

fn told(
    alloc: Global,
    system: &System,
    costs: &Costs,
    bounded: &Bounded,
) -> Result<String, AllocError>
    requires { IsInForm system.now.claims bounded.now.cert }
{
    match check(system, costs, &bounded.cert) {
        Verdict::Yes { cycles, greatest } => accepted(alloc, bounded, cycles, greatest),
        Verdict::No { .. } => String::from_str(alloc, "not accepted"),
    }
}

/// The greatest value of a flow, that there is none, or a bound alone.
pub fn searched(
    alloc: Global,
    system: &System,
    shapes: &[LoopShape],
    spans: &[Span],
    costs: &Costs,
) -> Result<String, Memory>
    requires reached { AreReached system.now }
    requires can { CanSearch (table_of costs.now) system.now shapes.now spans.now }
{
    let bounded = bound(alloc, system, shapes, spans, costs)?;
    let told = told(alloc, system, costs, &bounded);
    drop(bounded);
    Ok(told?)
}
