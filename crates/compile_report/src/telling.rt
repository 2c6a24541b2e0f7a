// What a report tells of the image of a source.
ghost use Rattle.std.specs.Prelude.{IfOk};
ghost use Rattle.compile_restrictions.specs.Told.{AreFactsTold};
ghost use Rattle.compile_source_claims.specs.Handed.{AreHandedOn};
ghost use Rattle.compile_report.specs.Sources.{IsMadeOf};
ghost use Rattle.compile_report.specs.Found as finds;

use crate::restricting::restricted;
use code_flow_system::Claims;
use compile_bound_law::made_can_be_named;
use compile_claim_limits::claims_are_few;
use compile_claims::{by_source, copy_lines};
use compile_stages::Made;
use facts_front::Source;
use facts_limits::restrictions_are_limited;
use std::alloc::Global;
use wcc_base::Memory;
use wcc_report::CopyLine;

/// The copy lines of functions and markers, and the claims by the loops and the restrictions of the source.
#[derive(Drop)]
pub struct Told {
    pub lines: Vec<CopyLine>,
    pub claims: Claims,
}

/// The claims on the image, by the loops of the source, and by its restrictions over these lines.
fn claims_of(
    alloc: Global,
    source: &Source,
    made: &Made,
    lines: &[CopyLine],
) -> Result<Claims, Memory>
    requires made { IsMadeOf source.now made.now }
    requires lines { finds.HasLines source.now made.now lines.now }
    ensures handed { IfOk result (AreHandedOn made.now) }
    ensures restricted { IfOk result (λ c. AreFactsTold source.now.facts lines.now c.facts) }
{
    made_can_be_named();
    claims_are_few();
    restrictions_are_limited();
    let facts = restricted(alloc, &source.facts, lines)?;
    let claims = by_source(
        alloc,
        &made.laid.claimed.claims,
        &made.stages.last.copies,
        made.stages.last.program.loops,
        &made.laid.lists.places,
        facts,
    )?;
    let _facts = claims.facts();
    Ok(claims)
}

/// The copy lines of functions and markers.
fn lines_of(alloc: Global, source: &Source, made: &Made) -> Result<Vec<CopyLine>, Memory>
    requires { IsMadeOf source.now made.now }
    ensures { IfOk result (λ v. finds.HasLines source.now made.now v.items) }
{
    let mut counted = Vec::from_slice(alloc, source.facts.functions.as_slice())?;
    counted.extend_from_slice(source.facts.markers.as_slice())?;
    copy_lines(
        alloc,
        &source.typed.program().names,
        &counted,
        &made.stages.last.copies.marks,
        &made.laid.lists.places,
    )
}

/// What is told of the image.
pub fn tell(alloc: Global, source: &Source, made: &Made) -> Result<Told, Memory>
    requires { IsMadeOf source.now made.now }
    ensures { IfOk result (finds.IsTold source.now made.now) }
{
    let lines = lines_of(alloc, source, made)?;
    match claims_of(alloc, source, made, &lines) {
        Ok(claims) => Ok(Told { lines, claims }),
        Err(memory) => {
            drop(lines);
            Err(memory)
        }
    }
}
