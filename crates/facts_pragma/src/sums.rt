// Sums of counts.
ghost use Rattle.std.specs.Prelude.{◌≡◌, ◌<◌, ◌++◌, ◌∷◌, [], None, Some, IfOk, IfSome, IfNone, OnOk, length};
ghost use Rattle.facts_definitions.specs.PragmaTexts.{behind_term, runs, sum};
ghost use Rattle.facts_pragma.specs.Reading.{before, numbered, read_sum};

use super::bounds::number;
use super::bytes::{is_name, same_bytes};
use super::names::name_id;
use super::runs::next_run;
use facts_definitions::Term;
use std::alloc::{AllocError, Global};
use wcc_base::Text;

const GREATEST_COEFFICIENT: u32 = 1_000_000;

/// A term, and what stands behind it.
#[derive(Clone, Copy)]
struct ReadTerm<'a> {
    term: Term,
    rest: &'a [u8],
}

/// A sum, and what stands behind it.
#[derive(Drop)]
pub struct Sum<'a> {
    pub terms: Vec<Term>,
    pub rest: &'a [u8],
}

fn read_term<'a>(text: &'a [u8], names: &[Text]) -> Result<Option<ReadTerm<'a>>, AllocError>
    ensures some { IfOk result (λ r. IfSome r (λ r. numbered names.now (sum (runs text.now)) ≡ before (r.term ∷ []) (numbered names.now (behind_term (runs r.rest.now))))) }
    ensures shorter { IfOk result (λ r. IfSome r (λ r. length r.rest.now < length text.now)) }
    ensures none { IfOk result (λ r. IfNone r (sum (runs text.now) ≡ None)) }
{
    let Some(coef) = next_run(text) else {
        return Ok(None);
    };
    let Some(star) = next_run(coef.rest) else {
        return Ok(None);
    };
    let Some(name) = next_run(star.rest) else {
        return Ok(None);
    };
    let Some(number) = number(coef.bytes, GREATEST_COEFFICIENT) else {
        return Ok(None);
    };
    if !same_bytes(star.bytes, b"*") {
        return Ok(None);
    }
    if !is_name(name.bytes) {
        return Ok(None);
    }
    let id = name_id(names, name.bytes)?;
    let term = Term {
        coef: number,
        name: id,
    };
    Ok(Some(ReadTerm {
        term,
        rest: name.rest,
    }))
}

/// What stands behind a `+`, where the text begins with one.
fn behind_plus(text: &[u8]) -> Option<&[u8]>
    ensures some { IfSome result (λ rest. behind_term (runs text.now) ≡ sum (runs rest.now)) }
    ensures shorter { IfSome result (λ rest. length rest.now < length text.now) }
    ensures none { IfNone result (behind_term (runs text.now) ≡ Some (record { terms = []; rest = runs text.now })) }
{
    let Some(sign) = next_run(text) else {
        return None;
    };
    if !same_bytes(sign.bytes, b"+") {
        return None;
    }
    Some(sign.rest)
}

fn push(terms: &mut Vec<Term>, term: Term) -> Result<(), AllocError>
    ensures { OnOk result (terms.new.items ≡ terms.old.items ++ term ∷ []) }
{
    terms.push(term)?;
    Ok(())
}

/// The sum that a text begins with.
pub fn read_sum<'a>(
    text: &'a [u8],
    names: &[Text],
    alloc: Global,
) -> Result<Option<Sum<'a>>, AllocError>
    ensures { IfOk result (λ r. read_sum r ≡ numbered names.now (sum (runs text.now))) }
{
    let mut terms = Vec::new(alloc);
    let mut rest = text;
    loop {
        let Some(read) = read_term(rest, names)? else {
            return Ok(None);
        };
        push(&mut terms, read.term)?;
        let Some(behind) = behind_plus(read.rest) else {
            return Ok(Some(Sum {
                terms,
                rest: read.rest,
            }));
        };
        rest = behind;
    }
}
