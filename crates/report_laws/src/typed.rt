// The ranges of a report's numbers: laws of their types.
ghost use Rattle.std.specs.Prelude.{All};
ghost use Rattle.report_laws.specs.Typed.{IsWord, IsTypedKind, IsTypedNever, IsTypedWithin, IsTypedLoop, IsTypedFact, IsTypedPart, IsTypedShare, IsTyped};

use code_flow_answer::Kind;
use code_flow_system::{FactClaim, LoopClaim, Never, Part, Within};
use report_text::{CopyLine, Report, Share};

fn are_words(xs: &[u32])
    ensures { All IsWord xs.now }
{
    let _count = xs.len();
}

fn is_kind(kind: Kind)
    ensures { IsTypedKind kind }
{
    let _kind = kind;
}

fn is_name(line: &CopyLine)
    ensures { All IsWord line.now.places }
{
    are_words(line.places.as_slice());
}

fn is_never(claim: &Never)
    ensures { IsTypedNever claim.now }
{
    let _source = claim.source;
    let _factor = claim.factor;
    let _at = claim.at;
}

fn is_region(claim: &Within)
    ensures { IsTypedWithin claim.now }
{
    let _first = claim.first;
    let _end = claim.end;
}

fn is_loop(claim: &LoopClaim)
    ensures { IsTypedLoop claim.now }
{
    let _source = claim.source;
    let _factor = claim.factor;
    let _min = claim.min;
    let _max = claim.max;
    let _header = claim.header;
    let _back = claim.back;
}

fn is_term(term: &(u32, i64))
    ensures { IsWord term.now.0 }
{
    let _at = term.0;
}

fn is_fact(claim: &FactClaim)
    ensures { IsTypedFact claim.now }
{
    are_terms(claim.left.terms());
    are_terms(claim.right.terms());
}

fn is_potential(potential: &(u32, i128))
    ensures { IsWord potential.now.0 }
{
    let _at = potential.0;
}

fn is_part(part: &Part)
    ensures { IsTypedPart part.now }
{
    let _at = part.at;
    let _number = part.number;
}

fn is_share(share: &Share)
    ensures { IsTypedShare share.now }
{
    let _first = share.first;
    let _end = share.end;
}

fn are_names(lines: &[CopyLine])
    ensures { All (λ c. All IsWord c.places) lines.now }
{
    for line in lines {
        is_name(line);
    }
}

fn are_nevers(claims: &[Never])
    ensures { All IsTypedNever claims.now }
{
    for claim in claims {
        is_never(claim);
    }
}

fn are_regions(claims: &[Within])
    ensures { All IsTypedWithin claims.now }
{
    for claim in claims {
        is_region(claim);
    }
}

fn are_loops(claims: &[LoopClaim])
    ensures { All IsTypedLoop claims.now }
{
    for claim in claims {
        is_loop(claim);
    }
}

fn are_terms(terms: &[(u32, i64)])
    ensures { All (λ t. IsWord t.0) terms.now }
{
    for term in terms {
        is_term(term);
    }
}

fn are_facts(claims: &[FactClaim])
    ensures { All IsTypedFact claims.now }
{
    for claim in claims {
        is_fact(claim);
    }
}

fn are_potentials(potentials: &[(u32, i128)])
    ensures { All (λ t. IsWord t.0) potentials.now }
{
    for potential in potentials {
        is_potential(potential);
    }
}

fn are_parts(parts: &[Part])
    ensures { All IsTypedPart parts.now }
{
    for part in parts {
        is_part(part);
    }
}

fn are_shares(shares: &[Share])
    ensures { All IsTypedShare shares.now }
{
    for share in shares {
        is_share(share);
    }
}

/// The ranges of all numbers of a report.
pub fn is_typed(report: &Report)
    ensures { IsTyped report.now }
{
    is_kind(report.kind);
    are_names(report.names.as_slice());
    are_words(report.claims.exits());
    are_nevers(report.claims.nevers());
    are_regions(report.claims.regions());
    are_loops(report.claims.loops());
    are_facts(report.claims.facts());
    are_potentials(report.cert.potentials.as_slice());
    are_parts(report.cert.flow.parts.as_slice());
    are_shares(report.shares.as_slice());
}
