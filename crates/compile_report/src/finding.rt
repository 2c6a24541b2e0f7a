// The bound of the image of a source, and its shares.
ghost use Rattle.std.specs.Prelude.{◌≡◌, ◌≤◌, ◌^◌, pos, ◌<ℤ◌, map, IfOk};
ghost use Rattle.code_flow_system.specs.declared.cert.Mark.TheVariants as marks;
ghost use Rattle.code_flow_system.specs.Certificates.{IsInForm, listed};
ghost use Rattle.code_flow_system.specs.Flows.{value};
ghost use Rattle.code_flow_system.specs.Systems.{IsSystemOf};
ghost use Rattle.path_fact_kinds.specs.Kinds as kinds;
ghost use Rattle.report_shares.specs.Shares.{with_sum};
ghost use Rattle.rv_core.specs.Table.{table_of};
ghost use Rattle.compile_report_law.specs.Reported.{AreShared};
ghost use Rattle.compile_report.specs.Sources as sources;
ghost use Rattle.compile_report.specs.Found as finds;

use code_flow::{CodeFault, system};
use code_flow_system::{Claims, System, weak_duality};
use compile_bound_law::{made_can_be_bounded, made_have_systems};
use compile_claims::shares_of;
use compile_stages::Made;
use facts_front::Source;
use path_enum::{Bounded, Kind, bound};
use path_places::systems_are_reached;
use rv_core::Costs;
use std::alloc::Global;
use wcc_base::Memory;
use wcc_report::{Share, fill_shares};

/// The bound of an image, and how it is shared among the ranges of code.
#[derive(Drop)]
pub struct Found {
    pub bounded: Bounded,
    pub shares: Vec<Share>,
}

/// The flow system of the image. Nothing but memory can be wanting.
fn system_of(alloc: Global, source: &Source, made: &Made, claims: &Claims) -> Result<System, Memory>
    requires made { sources.IsMadeOf source.now made.now }
    requires claims { finds.AreClaimsOf source.now made.now claims.now }
    ensures { IfOk result (IsSystemOf made.now.laid.image claims.now) }
{
    made_have_systems();
    match system(alloc, &made.laid.image, claims) {
        Ok(system) => Ok(system),
        Err(CodeFault::Memory) => Err(Memory),
        Err(CodeFault::BadClaim { .. }) => unreachable!(),
        Err(CodeFault::NotCode { .. }) => unreachable!(),
    }
}

/// The bound of the image, by its flow system.
fn bounded_of(
    alloc: Global,
    source: &Source,
    made: &Made,
    system: &System,
    costs: &Costs,
) -> Result<Bounded, Memory>
    requires made { sources.IsMadeOf source.now made.now }
    requires claims { finds.AreClaimsOf source.now made.now system.now.claims }
    requires system { IsSystemOf made.now.laid.image system.now.claims system.now }
    ensures found { IfOk result (kinds.IsFound (table_of costs.now) system.now) }
    ensures value { IfOk result (λ b. b.cert.mark ≡ marks.Greatest → value (table_of costs.now) system.now (listed b.cert.flow.parts) <ℤ pos (2 ^ 120)) }
    ensures cycles { IfOk result (λ b. b.cert.cycles ≤ 2 ^ 62) }
{
    made_can_be_bounded();
    systems_are_reached(&made.laid.image, system);
    let shapes = &made.laid.claimed.shapes;
    let spans = &made.laid.lists.spans;
    let bounded = bound(alloc, system, shapes, spans, costs)?;
    weak_duality(system, costs, &bounded.cert);
    Ok(bounded)
}

/// The shares of a bound that a flow reaches; another has none.
fn shared(
    alloc: Global,
    system: &System,
    costs: &Costs,
    bounded: &Bounded,
    ranges: Vec<Share>,
) -> Vec<Share>
    requires form { IsInForm system.now.claims bounded.now.cert }
    requires kind { kinds.HasKind (table_of costs.now) system.now bounded.now.columns bounded.now.cert bounded.now.kind }
    requires value { bounded.now.cert.mark ≡ marks.Greatest → value (table_of costs.now) system.now (listed bounded.now.cert.flow.parts) <ℤ pos (2 ^ 120) }
    ensures { AreShared bounded.now.kind (map (with_sum (table_of costs.now) system.now bounded.now.cert.flow.parts) ranges.items) result.items }
{
    match bounded.kind {
        Kind::Greatest => {
            let mut shares = ranges;
            fill_shares(system, costs, &bounded.cert.flow, &mut shares);
            shares
        }
        Kind::Empty | Kind::Wide { .. } | Kind::Spent { .. } => {
            drop(ranges);
            Vec::new(alloc)
        }
    }
}

/// The ranges of code, before their parts are known.
fn ranges_of(alloc: Global, source: &Source, made: &Made) -> Result<Vec<Share>, Memory>
    ensures { IfOk result (λ v. v.items ≡ sources.ranges_of source.now made.now) }
{
    shares_of(
        alloc,
        &source.typed.program().names,
        source.facts.functions.as_slice(),
        &made.laid.lists.ranges,
    )
}

/// The bound of the image and its shares, by its flow system.
fn find_in(
    alloc: Global,
    source: &Source,
    made: &Made,
    system: &System,
    costs: &Costs,
) -> Result<Found, Memory>
    requires made { sources.IsMadeOf source.now made.now }
    requires claims { finds.AreClaimsOf source.now made.now system.now.claims }
    requires system { IsSystemOf made.now.laid.image system.now.claims system.now }
    ensures { IfOk result (finds.IsBound (table_of costs.now) source.now made.now system.now) }
{
    let ranges = ranges_of(alloc, source, made)?;
    match bounded_of(alloc, source, made, system, costs) {
        Ok(bounded) => {
            let shares = shared(alloc, system, costs, &bounded, ranges);
            Ok(Found { bounded, shares })
        }
        Err(memory) => {
            drop(ranges);
            Err(memory)
        }
    }
}

/// The bound of the image and its shares.
pub fn find(
    alloc: Global,
    source: &Source,
    made: &Made,
    claims: &Claims,
    costs: &Costs,
) -> Result<Found, Memory>
    requires made { sources.IsMadeOf source.now made.now }
    requires claims { finds.AreClaimsOf source.now made.now claims.now }
    ensures { IfOk result (finds.HasBound (table_of costs.now) source.now made.now claims.now) }
{
    let system = system_of(alloc, source, made, claims)?;
    match find_in(alloc, source, made, &system, costs) {
        Ok(found) => {
            drop(system);
            Ok(found)
        }
        Err(memory) => {
            drop(system);
            Err(memory)
        }
    }
}
