// From a source to its image, a function for each stage.
ghost use Rattle.std.specs.Prelude.{◌≡◌, ℕ, List, IfOk};
ghost use Rattle.facts_sources.specs.Sources.{IsSource};
ghost use Rattle.types_tree.specs.View.{program_of as source_of};
ghost use Rattle.high_ir.specs.Programs.{program_of};
ghost use Rattle.high_pass.specs.Listing.{listing_of};
ghost use Rattle.low_ir.specs.Placings.{placed_of};
ghost use Rattle.compile_high_definitions.specs.Carried.{IsPlanned};
ghost use Rattle.compile_stages.specs.Made.{IsInMemory, IsLowered};
ghost use Rattle.compile_stages.specs.Placed.{CanBePlaced, Fits, HasNumbers, IsPlacedBy};
ghost use Rattle.wcc_compile.specs.Lowered.{IsCodeOf};

use crate::low_passes::code_of;
use compile_stages::{Lowered, Made, Stages};
use facts_front::Source;
use high_ir::Carried;
use high_make::make;
use image_memory::Placement;
use low_ir::LowReg;
use low_layout::{Laid, lay};
use spm_placement::placement;
use std::alloc::Global;
use wcc_base::Memory;

/// The plan of a source in the high form, and what became in it of the source's marks and loops.
pub(crate) fn planned(alloc: Global, source: &Source) -> Result<Carried, Memory>
    requires { (text : List ℕ) × IsSource text source.now.typed.program.names.items (source_of source.now.typed.program) source.now.facts }
    ensures { IfOk result (λ c. IsPlanned source.now.typed.program.names.items (source_of source.now.typed.program) source.now.facts (program_of c.program) (listing_of c.copies)) }
{
    make(alloc, &source.typed, &source.facts)
}

/// By mark of a program: whether a pass left it where no kept run comes.
fn never_reached(alloc: Global, last: &Carried) -> Result<Vec<bool>, Memory> {
    let mut never = vec![in alloc; false; last.program.marks as usize]?;
    for each in &last.copies.nevers {
        if let Some(is) = never.get_mut(each.mark as usize) {
            *is = true;
        }
    }
    Ok(never)
}

/// The code of the last program in the high form.
fn code_behind(alloc: Global, last: &Carried) -> Result<LowReg, Memory>
    ensures lowered { IfOk result (IsLowered (program_of last.now.program)) }
    ensures passed { IfOk result (IsCodeOf (program_of last.now.program)) }
{
    let never = never_reached(alloc, last)?;
    code_of(alloc, &last.program, &never)
}

/// A source in the low form: its last program there, over its places.
pub(crate) fn lowered(alloc: Global, stages: Stages) -> Result<Lowered, Memory>
    ensures stages { IfOk result (λ l. l.stages ≡ stages) }
    ensures code { IfOk result (λ l. IsLowered (program_of stages.last.program) l.code) }
    ensures passed { IfOk result (λ l. IsCodeOf (program_of stages.last.program) l.code) }
{
    match code_behind(alloc, &stages.last) {
        Ok(code) => Ok(Lowered { stages, code }),
        Err(memory) => {
            drop(stages);
            Err(memory)
        }
    }
}

/// The image of a program over its places, with the claims on it, where the program has room.
fn image_of(alloc: Global, code: &LowReg, placement: &Placement) -> Result<Laid, Memory>
    requires { Fits placement.now (placed_of code.now) }
    ensures { IfOk result (IsInMemory placement.now code.now) }
{
    lay(alloc, code, placement)
}

/// A source in memory, with what is placed.
fn in_memory(alloc: Global, lowered: Lowered, placement: Placement) -> Result<Made, Memory>
    requires { Fits placement (placed_of lowered.code) }
    ensures stages { IfOk result (λ m. m.stages ≡ lowered.stages) }
    ensures code { IfOk result (λ m. m.code ≡ lowered.code) }
    ensures placement { IfOk result (λ m. m.placement ≡ placement) }
    ensures memory { IfOk result (λ m. IsInMemory placement lowered.code m.laid) }
{
    let Lowered { stages, code } = lowered;
    match image_of(alloc, &code, &placement) {
        Ok(laid) => Ok(Made {
            stages,
            code,
            placement,
            laid,
        }),
        Err(memory) => {
            drop(stages);
            drop(code);
            drop(placement);
            Err(memory)
        }
    }
}

/// The placement of the functions and arrays with these numbers.
fn placement_of(alloc: Global, code: &LowReg, numbers: &[u32]) -> Result<Placement, Memory>
    ensures { IfOk result (HasNumbers numbers.now (placed_of code.now)) }
{
    let functions = code.low.functions.len();
    let objects = code.low.objects.len();
    placement(alloc, numbers, functions, objects)
}

/// A source in memory, with the functions and arrays of these numbers in the scratchpad.
pub(crate) fn laid(alloc: Global, lowered: Lowered, numbers: &[u32]) -> Result<Made, Memory>
    requires { CanBePlaced numbers.now (placed_of lowered.code) }
    ensures stages { IfOk result (λ m. m.stages ≡ lowered.stages) }
    ensures code { IfOk result (λ m. m.code ≡ lowered.code) }
    ensures placed { IfOk result (IsPlacedBy numbers.now) }
    ensures memory { IfOk result (λ m. IsInMemory m.placement m.code m.laid) }
{
    match placement_of(alloc, &lowered.code, numbers) {
        Ok(placement) => in_memory(alloc, lowered, placement),
        Err(memory) => {
            drop(lowered);
            Err(memory)
        }
    }
}

/// What a source was before it was laid.
pub(crate) fn unlaid(made: Made) -> Lowered
    ensures stages { result.stages ≡ made.stages }
    ensures code { result.code ≡ made.code }
{
    let Made {
        stages,
        code,
        placement,
        laid,
    } = made;
    drop(placement);
    drop(laid);
    Lowered { stages, code }
}
