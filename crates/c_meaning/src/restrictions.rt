// Whether the counts of a run keep its restrictions.
ghost use Rattle.std.specs.Prelude.{◌≡◌, map, IfOk};
ghost use Rattle.facts_definitions.specs.FlowFacts.{index_of};
ghost use Rattle.meaning_semantics.specs.Runs.{compared, count_of, first_violated, holds, sum_of};

use c_tree::expression::NameId;
use facts_definitions::{Restriction, Term};
use wcc_base::{Compare, Memory};

/// The number of the first of these names, or that of all names.
fn position(names: &[NameId], name: NameId) -> usize
    ensures { result ≡ index_of name.0 (map (λ n. n.0) names.now) }
{
    for index in 0..names.len() {
        if names[index].0 == name.0 {
            return index;
        }
    }
    names.len()
}

/// The count of a function or marker.
fn count_of(names: &[NameId], counts: &[u64], name: NameId) -> u64
    ensures { result ≡ count_of names.now counts.now name.0 }
{
    counts.get(position(names, name)).copied().unwrap_or(0)
}

/// A sum of multiples of counts. One that leaves its type counts as want of memory.
fn sum_of(names: &[NameId], counts: &[u64], terms: &[Term]) -> Result<u128, Memory>
    ensures { IfOk result (λ n. n ≡ sum_of names.now counts.now terms.now) }
{
    let mut sum: u128 = 0;
    for term in terms {
        let product = u128::from(term.coef) * u128::from(count_of(names, counts, term.name));
        sum = match sum.checked_add(product) {
            None => return Err(Memory),
            Some(sum) => sum,
        };
    }
    Ok(sum)
}

fn is_kept(op: Compare, left: u128, right: u128) -> bool
    ensures { result ≡ compared op left right }
{
    match op {
        Compare::AtMost => left <= right,
        Compare::AtLeast => right <= left,
        Compare::Equal => left == right,
    }
}

fn holds(names: &[NameId], counts: &[u64], restriction: &Restriction) -> Result<bool, Memory>
    ensures { IfOk result (λ b. b ≡ holds names.now counts.now restriction.now) }
{
    let left = sum_of(names, counts, restriction.left.as_slice())?;
    let right = sum_of(names, counts, restriction.right.as_slice())?;
    Ok(is_kept(restriction.op, left, right))
}

/// The place of the first restriction that the counts violate.
pub fn first_violated(
    names: &[NameId],
    counts: &[u64],
    restrictions: &[Restriction],
) -> Result<Option<u32>, Memory>
    ensures { IfOk result (λ r. r ≡ first_violated names.now counts.now restrictions.now) }
{
    for restriction in restrictions {
        if !holds(names, counts, restriction)? {
            return Ok(Some(restriction.at));
        }
    }
    Ok(None)
}
