// The program in the low form.
ghost use Rattle.std.specs.Prelude.{IfOk};
ghost use Rattle.high_ir.specs.Programs.{program_of};
ghost use Rattle.low_ir.specs.Programs.{low_of};
ghost use Rattle.low_make.specs.Lowered.{IsLowered};
ghost use Rattle.lower_law.specs.Programs.{KeepsProgram, SparesRegisters};

use super::program::parts_of;
use high_ir::High;
use low_ir::Low;
use pass_constant_hoisting::{chosen, held_functions};
use std::alloc::Global;
use wcc_base::Memory;

/// The program in the low form that a program in the high form becomes, with some words in registers. It fails
/// only for want of memory.
pub fn lower(alloc: Global, program: &High) -> Result<Low, Memory>
    ensures lowered { IfOk result (λ l. IsLowered (program_of program.now) (low_of l)) }
    ensures keeps { IfOk result (λ l. KeepsProgram (program_of program.now) (low_of l)) }
    ensures spares { IfOk result (λ l. SparesRegisters (program_of program.now) (low_of l)) }
{
    let parts = parts_of(alloc, program)?;
    let words = chosen(alloc, &parts.functions)?;
    let functions = held_functions(alloc, &words, &parts.functions)?;
    Ok(Low {
        functions,
        claims: parts.claims,
        objects: parts.objects,
        main: parts.main,
        marks: parts.marks,
    })
}
