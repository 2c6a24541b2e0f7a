// The low passes: from the last program in the high form to its code over places, a line for each pass.
ghost use Rattle.std.specs.Prelude.{IfOk};
ghost use Rattle.high_ir.specs.Programs.{program_of};
ghost use Rattle.low_ir.specs.Programs.{low_of};
ghost use Rattle.compile_stages.specs.Made.{IsLowered};
ghost use Rattle.wcc_compile.specs.Lowered.{IsCodeOf, IsQuickened, IsShortened};

use high_ir::High;
use low_ir::{Low, LowReg};
use low_make::lower;
use pass_common_subexpressions::without_reloads;
use pass_copy_propagation::without_copies;
use pass_jump_threading::threaded;
use pass_register_promotion::promoted;
use pass_strength_reduction::stepped;
use register_allocation::allocate;
use register_live_ranges::live;
use std::alloc::Global;
use wcc_base::Memory;

/// Jump threading, then common subexpression elimination and copy propagation, twice: copies make more values equal. By mark: whether its
/// block stays though no run comes there.
fn shortened(alloc: Global, low: Low, never: &[bool]) -> Result<Low, Memory>
    ensures { IfOk result (λ l. IsShortened (low_of low) (low_of l)) }
{
    let short = threaded(alloc, low, never)?;
    let loaded = without_reloads(alloc, short)?;
    let brief = without_copies(alloc, loaded)?;
    let again = without_reloads(alloc, brief)?;
    let fewer = without_copies(alloc, again)?;
    Ok(fewer)
}

/// Strength reduction, then copy propagation, which leaves out the indexes that nothing reads any more, and jump threading.
fn quickened(alloc: Global, low: Low, never: &[bool]) -> Result<Low, Memory>
    ensures { IfOk result (λ l. IsQuickened (low_of low) (low_of l)) }
{
    let quick = stepped(alloc, low)?;
    let bare = without_copies(alloc, quick)?;
    let last = threaded(alloc, bare, never)?;
    Ok(last)
}

/// The code of a program in the high form: its low form, the passes over that, and a place for each register. By mark: whether its block
/// stays though no run comes there.
pub(crate) fn code_of(alloc: Global, program: &High, never: &[bool]) -> Result<LowReg, Memory>
    ensures lowered { IfOk result (IsLowered (program_of program.now)) }
    ensures passed { IfOk result (IsCodeOf (program_of program.now)) }
{
    let plain = lower(alloc, program)?;
    let held = promoted(alloc, plain)?;
    let brief = shortened(alloc, held, never)?;
    let low = quickened(alloc, brief, never)?;
    let live = live(alloc, &low)?;
    let code = allocate(alloc, low, &live)?;
    Ok(code)
}
