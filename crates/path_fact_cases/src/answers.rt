// What walks find at multipliers.
ghost use Rattle.std.specs.Prelude.{◌≡◌, ◌≤ℤ◌, pos, false, IfSome, All};
ghost use Rattle.rv_core.specs.Table.{table_of};
ghost use Rattle.code_flow_system.specs.Certificates.{IsInForm};
ghost use Rattle.code_flow_system.specs.Systems.{IsSystemOf};
ghost use Rattle.path_places.specs.Reached.{AreReached};
ghost use Rattle.path_conditions.specs.Natural.{IsNaturalFact};
ghost use Rattle.path_cert.specs.Priced.{fact_low};
ghost use Rattle.path_conditions.specs.Walking.{IsSearchable};
ghost use Rattle.path_fact_columns.specs.Laws.{AreBest};
ghost use Rattle.path_fact_cases.specs.Asked.{AreAsked};

use crate::asking::are_asked;
use crate::cases::{Case, image};
use crate::claims::{claims, shapes, spans};
use crate::searches::searched;
use crate::words::shown;
use code_flow::system;
use code_flow_system::{Cert, Claims, LoopShape, Part, Span, System};
use dual_check::{Verdict, check};
use path_fact_columns::{answer_at, column};
use path_fact_fit::{can_search, is_searchable};
use path_fact_walks::{Multiplied, block};
use path_places::systems_are_reached;
use rv_core::{Costs, Image, default_costs};
use std::alloc::{AllocError, Global};
use wcc_base::Memory;

/// What a certificate says that is accepted.
fn bound(alloc: Global, system: &System, costs: &Costs, cert: &Cert) -> Result<String, AllocError>
    requires { IsInForm system.now.claims cert.now }
{
    match check(system, costs, cert) {
        Verdict::Yes { cycles, .. } => format!(in alloc; "bound {cycles}"),
        Verdict::No { .. } => String::from_str(alloc, "not accepted"),
    }
}

/// The same, if there is one.
fn bound_of(
    alloc: Global,
    multiplied: Multiplied,
    cert: &Option<Cert>,
) -> Result<String, AllocError>
    requires { IfSome cert.now (IsInForm multiplied.system.now.claims) }
{
    match cert {
        Some(cert) => bound(alloc, multiplied.system, multiplied.costs, cert),
        None => String::from_str(alloc, "no bound"),
    }
}

/// The column of a flow.
fn column_told(alloc: Global, multiplied: Multiplied, parts: &[Part]) -> Result<String, AllocError>
    requires natural { All IsNaturalFact multiplied.system.now.claims.facts }
    requires best { AreBest (table_of multiplied.costs.now) multiplied.system.now multiplied.scale multiplied.facts.now parts.now }
{
    let column = column(alloc, multiplied.system, multiplied.costs, parts)?;
    let totals = shown(alloc, column.totals.as_slice())?;
    format!(in alloc; "value {}, totals{totals}", column.value)
}

fn is_negative(worth: i128) -> bool
    ensures { result ≡ false → pos 0 ≤ℤ worth }
{
    worth < 0
}

/// The worth, the column and the bound.
fn told(alloc: Global, multiplied: Multiplied, spans: &[Span]) -> Result<String, AllocError>
    requires searchable { IsSearchable (table_of multiplied.costs.now) multiplied.system.now multiplied.shapes.now spans.now }
    requires asked { AreAsked multiplied.system.now multiplied.scale multiplied.facts.now }
    requires low { multiplied.low ≡ fact_low multiplied.scale multiplied.facts.now }
{
    let answer = answer_at(alloc, multiplied, spans)?;
    let bound = bound_of(alloc, multiplied, &answer.cert)?;
    if is_negative(answer.worth) {
        return format!(in alloc; "worth {}, {bound}", answer.worth);
    }
    let column = column_told(alloc, multiplied, answer.parts.as_slice())?;
    format!(in alloc; "worth {}, {column}, {bound}", answer.worth)
}

/// The answer at a scale and multipliers, if walks can be asked for them.
fn asked(
    alloc: Global,
    system: &System,
    shapes: &[LoopShape],
    spans: &[Span],
    numbers: &[i128],
) -> Result<String, Memory>
    requires { AreReached system.now }
{
    let costs = default_costs();
    if !can_search(alloc, system, shapes, spans, &costs)? {
        return Ok(String::from_str(alloc, "not searched")?);
    }
    is_searchable(system, shapes, spans, &costs);
    let [first, facts @ ..] = numbers else {
        return searched(alloc, system, shapes, spans, &costs);
    };
    let Ok(scale) = u64::try_from(*first) else {
        return Ok(String::from_str(alloc, "no scale")?);
    };
    if !are_asked(system, scale, facts) {
        return Ok(String::from_str(alloc, "not asked")?);
    }
    let multiplied = Multiplied {
        system,
        shapes,
        costs: &costs,
        scale,
        facts,
        low: block(scale, facts),
    };
    Ok(told(alloc, multiplied, spans)?)
}

fn system_answer(alloc: Global, system: &System, case: &Case) -> Result<String, Memory>
    requires { AreReached system.now }
{
    let shapes = shapes(alloc, case)?;
    let spans = spans(alloc, case)?;
    asked(alloc, system, &shapes, &spans, &case.multipliers)
}

// A law of a system that is found.
fn found_is_reached(image: &Image, claims: &Claims, system: &System)
    requires { IsSystemOf image.now claims.now system.now }
    ensures { AreReached system.now }
{
    systems_are_reached(image, system);
}

fn claims_answer(
    alloc: Global,
    image: &Image,
    claims: &Claims,
    case: &Case,
) -> Result<String, Memory> {
    match system(alloc, image, claims) {
        Ok(system) => {
            found_is_reached(image, claims, &system);
            let answer = system_answer(alloc, &system, case);
            drop(system);
            answer
        }
        Err(_) => Ok(String::from_str(alloc, "no system")?),
    }
}

fn image_answer(alloc: Global, image: &Image, case: &Case) -> Result<String, Memory> {
    match claims(alloc, case)? {
        Some(claims) => {
            let answer = claims_answer(alloc, image, &claims, case);
            drop(claims);
            answer
        }
        None => Ok(String::from_str(alloc, "no claims")?),
    }
}

/// What is said of a case.
pub fn answer_of(alloc: Global, case: &Case) -> Result<String, Memory> {
    match image(alloc, case)? {
        Some(image) => {
            let answer = image_answer(alloc, &image, case);
            drop(image);
            answer
        }
        None => Ok(String::from_str(alloc, "no image")?),
    }
}
