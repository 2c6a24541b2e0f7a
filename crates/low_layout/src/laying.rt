// A laid program.
ghost use Rattle.std.specs.Prelude.{◌≡◌, IfOk};
ghost use Rattle.low_ir.specs.Programs.{low_of};
ghost use Rattle.low_ir.specs.Placings.{placed_of, placings_of};
ghost use Rattle.image_definition.specs.Images.{FitsImage, items_in, rows_in};
ghost use Rattle.asm_forms.specs.Laid.{IsFormed};
ghost use Rattle.image_saving.specs.Walks.{HaveSpots};
ghost use Rattle.image_definition.specs.Sizes.{HasSizes};
ghost use Rattle.claims_lists.specs.Places.{IsRoomy};
ghost use Rattle.claims_image.specs.Images.{laid_of};
ghost use Rattle.layout_relation.specs.Kept.{KeepsLow};
ghost use Rattle.claims_definition.specs.Listed.{Laid as Whole};
ghost use Rattle.claims_making.specs.Whole.{IsWhole};
ghost use Rattle.image_frames.specs.Memories.{memory_of};
ghost use Rattle.layout_program.specs.Laid.{AreClaimed, AreListed, IsLaid};

use super::words::has_words;
use asm_data::Data;
use claims_lists::{Laying, code_ranges, shapes_of, spans};
use claims_making::claims_of;
use claims_movables::items;
use claims_places::places_by_mark;
use claims_touches::{Touch, touches_of};
use image_making::{Assembly, array_regions, assemble};
use image_memory::Placement;
use layout_program::{Claimed, Laid, Lists};
use low_ir::LowReg;
use rv_core::Region;
use std::alloc::Global;
use wcc_base::{Items, Memory};

/// What there is of it beside the image.
#[derive(Drop)]
struct Parts {
    claimed: Claimed,
    lists: Lists,
}

/// Where frames and arrays lie, and what items touch.
#[derive(Clone, Copy)]
struct Seen<'a> {
    memory: &'a Data,
    /// By array.
    regions: &'a [Region],
    /// By function, block and item, those of the start code last.
    touches: &'a [Items<Items<Touch>>],
}

fn claims_in(alloc: Global, laying: &Laying<'_>, seen: &Seen<'_>) -> Result<Claimed, Memory>
    requires { IsRoomy laying.now.layout.now }
    ensures { IfOk result (λ y. (l : Whole) → IsWhole laying.now seen.now.regions.now seen.now.touches.now l → AreClaimed l y) }
{
    let claims = claims_of(alloc, laying, seen.regions, seen.touches)?;
    match shapes_of(alloc, claims.loops()) {
        Ok(shapes) => Ok(Claimed { claims, shapes }),
        Err(memory) => {
            drop(claims);
            Err(memory)
        }
    }
}

fn lists_in(alloc: Global, laying: &Laying<'_>, seen: &Seen<'_>) -> Result<Lists, Memory>
    requires { IsRoomy laying.now.layout.now }
    ensures { IfOk result (λ y. (l : Whole) → IsWhole laying.now seen.now.regions.now seen.now.touches.now l → l.memory ≡ seen.now.memory.now → AreListed laying.now.code.now l y) }
{
    let spans = spans(alloc, laying)?;
    let ranges = code_ranges(alloc, laying)?;
    let places = places_by_mark(alloc, laying, laying.code.low.marks)?;
    let items = items(alloc, laying, seen.memory, seen.regions, seen.touches)?;
    Ok(Lists {
        spans,
        ranges,
        places,
        items,
    })
}

fn parts_in(alloc: Global, laying: &Laying<'_>, seen: &Seen<'_>) -> Result<Parts, Memory>
    requires { IsRoomy laying.now.layout.now }
    ensures claimed { IfOk result (λ y. (l : Whole) → IsWhole laying.now seen.now.regions.now seen.now.touches.now l → AreClaimed l y.claimed) }
    ensures lists { IfOk result (λ y. (l : Whole) → IsWhole laying.now seen.now.regions.now seen.now.touches.now l → l.memory ≡ seen.now.memory.now → AreListed laying.now.code.now l y.lists) }
{
    let claimed = claims_in(alloc, laying, seen)?;
    match lists_in(alloc, laying, seen) {
        Ok(lists) => Ok(Parts { claimed, lists }),
        Err(memory) => {
            drop(claimed);
            Err(memory)
        }
    }
}

/// What is claimed of a program in this memory and layout, and how it lies.
fn parts_of(
    alloc: Global,
    code: &LowReg,
    placement: &Placement,
    assembly: &Assembly,
) -> Result<Parts, Memory>
    requires memory { assembly.now.memory ≡ memory_of placement.now (placed_of code.now) }
    requires formed { IsFormed (rows_in placement.now (placed_of code.now)) (items_in placement.now (placed_of code.now)) assembly.now.layout }
    requires fit { FitsImage placement.now (placed_of code.now) }
    ensures claimed { IfOk result (λ y. AreClaimed (laid_of placement.now (placed_of code.now)) y.claimed) }
    ensures lists { IfOk result (λ y. AreListed code.now (laid_of placement.now (placed_of code.now)) y.lists) }
{
    let regions = array_regions(alloc, code, placement)?;
    let touches = touches_of(alloc, code, &assembly.memory)?;
    let areas = regions.as_slice();
    let touched = touches.as_slice();
    let laying = Laying {
        code,
        layout: &assembly.layout,
        placed: &placement.functions,
    };
    let seen = Seen {
        memory: &assembly.memory,
        regions: areas,
        touches: touched,
    };
    let parts = parts_in(alloc, &laying, &seen)?;
    Ok(parts)
}

fn joined(assembly: Assembly, parts: Parts) -> Laid
    ensures image { result.image ≡ assembly.image }
    ensures claimed { result.claimed ≡ parts.claimed }
    ensures lists { result.lists ≡ parts.lists }
{
    let Assembly {
        memory,
        layout,
        image,
    } = assembly;
    drop(memory);
    drop(layout);
    let Parts { claimed, lists } = parts;
    Laid {
        image,
        claimed,
        lists,
    }
}

/// A program that has room.
fn laid_whole(alloc: Global, code: &LowReg, placement: &Placement) -> Result<Laid, Memory>
    requires spots { HaveSpots (low_of code.now.low).functions }
    requires fit { FitsImage placement.now (placed_of code.now) }
    ensures { IfOk result (λ y. IsLaid placement.now code.now y) }
{
    let assembly = assemble(alloc, code, placement)?;
    match parts_of(alloc, code, placement, &assembly) {
        Ok(parts) => Ok(joined(assembly, parts)),
        Err(memory) => {
            drop(assembly);
            Err(memory)
        }
    }
}

/// The image of a program, with the claims on it and its lists. The functions and arrays that the placement names lie in
/// the scratchpad.
pub fn lay(alloc: Global, code: &LowReg, placement: &Placement) -> Result<Laid, Memory>
    requires { HasSizes placement.now (placed_of code.now) }
    ensures exact { IfOk result (λ y. IsLaid placement.now code.now y) }
    ensures keeps { KeepsLow placement.now (placings_of code.now) (low_of code.now.low) }
{
    has_words(code);
    laid_whole(alloc, code, placement)
}
