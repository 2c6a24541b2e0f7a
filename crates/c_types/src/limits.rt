// The limits of a unit.
ghost use Rattle.std.specs.Prelude.{◌≡◌, ◌+◌, IfOk};
ghost use Rattle.types_rules.specs.Limits.{global_bytes, global_bytes_of, limit, limits_before, limits_behind, local_bytes, local_bytes_of, object_bytes, over};
ghost use Rattle.types_rules.specs.Scope.{or_else};
ghost use Rattle.c_types.specs.Tally.{tally_said};

use super::tally::Tally;
use std::alloc::AllocError;
use types_rules::TypeFault;
use types_tree::variable::{Duration, Extent, Variable};
use types_value::Kind;
use wcc_base::{Bound, limit_of};

/// A number that is over its limit.
pub fn over(which: Bound, number: u64) -> Option<u64>
    ensures { result ≡ over which number }
{
    if limit_of(which) < number {
        Some(number)
    } else {
        None
    }
}

fn limit(which: Bound, found: Option<u64>) -> Option<TypeFault>
    ensures { result ≡ limit which found }
{
    match found {
        None => None,
        Some(found) => Some(TypeFault::Limit { which, found }),
    }
}

pub fn fault_or(one: Option<TypeFault>, other: Option<TypeFault>) -> Option<TypeFault>
    ensures { result ≡ or_else one other }
{
    match one {
        Some(fault) => Some(fault),
        None => other,
    }
}

/// The first limit that is passed, of those that come before the rules.
pub fn limits_before(nodes: u32, tally: Tally) -> Option<TypeFault>
    ensures { result ≡ limits_before nodes (tally_said tally) }
{
    let nodes = limit(Bound::Nodes, over(Bound::Nodes, u64::from(nodes)));
    let functions = limit(Bound::Functions, over(Bound::Functions, tally.functions));
    let parameters = limit(Bound::Parameters, tally.parameters);
    let markers = limit(Bound::Markers, over(Bound::Markers, tally.markers));
    let restrictions = limit(
        Bound::Restrictions,
        over(Bound::Restrictions, tally.restrictions),
    );
    let late = fault_or(parameters, fault_or(markers, restrictions));
    fault_or(nodes, fault_or(functions, late))
}

/// The bytes of an object: 4 of a scalar or an array parameter, those of an array rounded up to a multiple of 4.
fn object_bytes(kind: Kind, extent: Extent) -> u64
    ensures { result ≡ object_bytes kind extent }
{
    match extent {
        Extent::Scalar => 4,
        Extent::Array(count) => (u64::from(count) * u64::from(kind.bytes()) + 3) / 4 * 4,
        Extent::Parameter => 4,
    }
}

fn global_bytes_of(duration: Duration, bytes: u64) -> u64
    ensures { result ≡ global_bytes_of duration bytes }
{
    match duration {
        Duration::Static => bytes,
        Duration::Automatic => 0,
    }
}

fn local_bytes_of(duration: Duration, bytes: u64) -> u64
    ensures { result ≡ local_bytes_of duration bytes }
{
    match duration {
        Duration::Static => 0,
        Duration::Automatic => bytes,
    }
}

fn sum(one: u64, other: u64) -> Result<u64, AllocError>
    ensures { IfOk result (λ n. n ≡ one + other) }
{
    one.checked_add(other).ok_or(AllocError)
}

fn global_bytes(variables: &[Variable]) -> Result<u64, AllocError>
    ensures { IfOk result (λ n. n ≡ global_bytes variables.now) }
{
    let mut total = 0;
    for v in variables {
        total = sum(
            total,
            global_bytes_of(v.duration, object_bytes(v.kind, v.extent)),
        )?;
    }
    Ok(total)
}

fn local_bytes(variables: &[Variable]) -> Result<u64, AllocError>
    ensures { IfOk result (λ n. n ≡ local_bytes variables.now) }
{
    let mut total = 0;
    for v in variables {
        total = sum(
            total,
            local_bytes_of(v.duration, object_bytes(v.kind, v.extent)),
        )?;
    }
    Ok(total)
}

/// The first limit that is passed, of those that come behind the rules.
pub fn limits_behind(variables: &[Variable]) -> Result<Option<TypeFault>, AllocError>
    ensures { IfOk result (λ fault. fault ≡ limits_behind variables.now) }
{
    let globals = over(Bound::Globals, global_bytes(variables)?);
    let locals = over(Bound::Locals, local_bytes(variables)?);
    Ok(fault_or(limit(Bound::Globals, globals), limit(Bound::Locals, locals)))
}
