// Shares of ranges of code.
ghost use Rattle.std.specs.Prelude.{◌≡◌, map, slice_get, IfOk};
ghost use Rattle.compile_claims.specs.Shares.{name_by, share_of};

use crate::copies::name_text;
use c_tree::expression::NameId;
use claims_lists::CodeRange;
use report_text::Share;
use std::alloc::Global;
use wcc_base::{Memory, Text};

/// The name of a function, by its number.
fn function_name(
    alloc: Global,
    names: &[Text],
    functions: &[NameId],
    function: u32,
) -> Result<Option<Text>, Memory>
    ensures { IfOk result (λ n. n ≡ name_by names.now functions.now (slice_get functions.now function)) }
{
    match functions.get(function as usize) {
        Some(id) => {
            let name = name_text(alloc, names, *id)?;
            Ok(Some(name))
        }
        None => Ok(None),
    }
}

/// The share of a range, before its part is known.
fn share(
    alloc: Global,
    names: &[Text],
    functions: &[NameId],
    range: CodeRange,
) -> Result<Share, Memory>
    ensures { IfOk result (λ s. s ≡ share_of names.now functions.now range) }
{
    let name = match range.function {
        Some(function) => function_name(alloc, names, functions, function)?,
        None => None,
    };
    Ok(Share {
        name,
        first: range.first,
        end: range.end,
        part: 0,
    })
}

/// A share for each range, whose part is still 0.
pub fn shares_of(
    alloc: Global,
    names: &[Text],
    functions: &[NameId],
    ranges: &[CodeRange],
) -> Result<Vec<Share>, Memory>
    ensures { IfOk result (λ v. v.items ≡ map (share_of names.now functions.now) ranges.now) }
{
    let mut shares = Vec::new(alloc);
    for range in ranges {
        let share = share(alloc, names, functions, *range)?;
        shares.push(share)?;
    }
    Ok(shares)
}
