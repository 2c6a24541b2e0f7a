// The ranges of functions.
ghost use Rattle.std.specs.Prelude.{◌≡◌, map, IfOk};
ghost use Rattle.claims_definition.specs.Listed.{Laid, code_ranges};
ghost use Rattle.claims_lists.specs.Lists.{IsOf, first_mark, range_in, range_of};
ghost use Rattle.claims_lists.specs.Outlines.{block_mark};
ghost use Rattle.claims_lists.specs.Places.{IsRoomy};

use super::laying::{Laying, base_of, blocks_of, end_of};
use super::order::by_address;
use low_ir::Block;
use std::alloc::Global;
use wcc_base::Memory;

/// The code of a function, which its opening mark names, from an address up to another one. The start code
/// has no name.
#[derive(Clone, Copy)]
pub struct CodeRange {
    pub function: Option<u32>,
    pub first: u32,
    pub end: u32,
}

fn opening_of(blocks: &[Block]) -> Option<u32>
    ensures { result ≡ first_mark (map block_mark blocks.now) }
{
    match blocks.get(0) {
        Some(block) => block.mark,
        None => None,
    }
}

fn range_of(laying: &Laying<'_>, function: usize) -> CodeRange
    requires { IsRoomy laying.now.layout.now }
    ensures { range_of result ≡ range_in laying.now.code.now laying.now.layout.now function }
{
    CodeRange {
        function: opening_of(blocks_of(laying.code, function)),
        first: base_of(laying.layout, function),
        end: end_of(laying.layout, function),
    }
}

fn ranges_by(alloc: Global, laying: &Laying<'_>, order: &[usize]) -> Result<Vec<CodeRange>, Memory>
    requires { IsRoomy laying.now.layout.now }
    ensures { IfOk result (λ ranges. map range_of ranges.items ≡ map (range_in laying.now.code.now laying.now.layout.now) order.now) }
{
    let mut ranges = Vec::new(alloc);
    for function in order {
        ranges.push(range_of(laying, *function))?;
    }
    Ok(ranges)
}

/// The ranges of functions, in the order of their addresses.
pub fn code_ranges(alloc: Global, laying: &Laying<'_>) -> Result<Vec<CodeRange>, Memory>
    requires { IsRoomy laying.now.layout.now }
    ensures { IfOk result (λ ranges. (l : Laid) → IsOf laying.now l → map range_of ranges.items ≡ code_ranges l) }
{
    let order = by_address(alloc, laying.placed, laying.layout.functions.len())?;
    let ranges = ranges_by(alloc, laying, order.as_slice())?;
    Ok(ranges)
}
