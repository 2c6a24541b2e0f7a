// Flow restrictions.
ghost use Rattle.std.specs.Prelude.{◌≡◌, IfOk, Some, None};
ghost use Rattle.facts_definitions.specs.PragmaTexts.{compare, restriction, runs, sum, with_left};
ghost use Rattle.facts_definitions.specs.FlowFacts.{numbered_restriction};
ghost use Rattle.facts_pragma.specs.Reading.{restricted};

use super::bytes::same_bytes;
use super::runs::next_run;
use super::sums::read_sum;
use facts_definitions::{Restriction, Term};
use parse_tokens::behind_first_word;
use std::alloc::{AllocError, Global};
use wcc_base::{Compare, Items, Text};

const MOST_TERMS: usize = 64;

fn compare(sign: &[u8]) -> Option<Compare>
    ensures { result ≡ compare sign.now }
{
    if same_bytes(sign, b"<=") {
        return Some(Compare::AtMost);
    }
    if same_bytes(sign, b">=") {
        return Some(Compare::AtLeast);
    }
    if same_bytes(sign, b"=") {
        return Some(Compare::Equal);
    }
    None
}

fn restricted(left: Vec<Term>, op: Compare, right: Vec<Term>, at: u32) -> Option<Restriction>
    ensures { result ≡ restricted left.items op right.items at }
{
    let terms = left.as_slice().len();
    if terms > MOST_TERMS {
        return None;
    }
    if right.as_slice().len() > MOST_TERMS - terms {
        return None;
    }
    Some(Restriction {
        left: Items::new(left),
        op,
        right: Items::new(right),
        at,
    })
}

fn restriction_among(
    text: &[u8],
    at: u32,
    names: &[Text],
    alloc: Global,
) -> Result<Option<Restriction>, AllocError>
    ensures { IfOk result (λ r. r ≡ numbered_restriction names.now at (with_left (sum (runs text.now)))) }
{
    let Some(left) = read_sum(text, names, alloc)? else {
        return Ok(None);
    };
    let Some(sign) = next_run(left.rest) else {
        return Ok(None);
    };
    let Some(op) = compare(sign.bytes) else {
        return Ok(None);
    };
    match read_sum(sign.rest, names, alloc)? {
        None => Ok(None),
        Some(right) => {
            if next_run(right.rest).is_some() {
                return Ok(None);
            }
            Ok(restricted(left.terms, op, right.terms, at))
        }
    }
}

/// What `flowrestriction SUM OP SUM` says.
pub fn restriction(
    text: &[u8],
    at: u32,
    names: &[Text],
    alloc: Global,
) -> Result<Option<Restriction>, AllocError>
    ensures { IfOk result (λ r. r ≡ numbered_restriction names.now at (restriction text.now)) }
{
    let read = restriction_among(behind_first_word(text), at, names, alloc)?;
    Ok(read)
}
