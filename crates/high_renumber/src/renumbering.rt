// The renumbered program.
ghost use Rattle.std.specs.Prelude.{◌≡◌, ◌<◌, [], All, IfOk, map};
ghost use Rattle.std.specs.List.{range_with_len};
ghost use Rattle.high_ir.specs.Programs.{program_of};
ghost use Rattle.high_ir.specs.View.{function_of};
ghost use Rattle.high_pass.specs.Listing.{listing_of};
ghost use Rattle.high_renumber.specs.Keeping.{IsLoose};
ghost use Rattle.high_renumber.specs.Numbered.{copies_by, copies_in, loop_origins, mark_origins, renumbered};
ghost use Rattle.high_renumber.specs.View.{loose_program};

use super::grouping::{loop_copies, mark_copies};
use super::loose::Loose;
use super::numbering::{Origins, functions_numbered};
use super::numbers::offset;
use high_ir::{Carried, Copies, Function, High};
use std::alloc::Global;
use wcc_base::Memory;

/// The first marks are their own origins: the opening marks.
fn no_origins(alloc: Global, functions: usize) -> Result<Origins, Memory>
    ensures marks { IfOk result (λ o. o.marks.items ≡ range_with_len 0 functions) }
    ensures loops { IfOk result (λ o. o.loops.items ≡ []) }
{
    let mut marks = Vec::new(alloc);
    for i in 0..functions {
        marks.push(offset(0, i)?)?;
    }
    Ok(Origins {
        marks,
        loops: Vec::new(alloc),
    })
}

/// The copies of so many marks and loops.
fn copies(alloc: Global, marks: u32, loops: u32, origins: &Origins) -> Result<Copies, Memory>
    requires marks { All (λ o. o < marks) origins.now.marks.items }
    requires loops { All (λ o. o < loops) origins.now.loops.items }
    ensures { IfOk result (λ c. listing_of c ≡ copies_by marks loops origins.now.marks.items origins.now.loops.items) }
{
    let marks = mark_copies(alloc, marks, &origins.marks)?;
    let loops = loop_copies(alloc, loops, &origins.loops)?;
    Ok(Copies {
        marks,
        loops,
        nevers: Vec::new(alloc),
    })
}

/// The program of these functions, which have numbers of their own, and of the objects of another one.
fn high(functions: Vec<Function>, origins: &Origins, loose: Loose) -> Result<High, Memory>
    requires loose { IsLoose (loose_program loose) }
    requires made { map function_of functions.items ≡ (renumbered (loose_program loose)).functions }
    requires marks { origins.now.marks.items ≡ mark_origins (loose_program loose).functions }
    requires loops { origins.now.loops.items ≡ loop_origins (loose_program loose).functions }
    ensures { IfOk result (λ h. program_of h ≡ renumbered (loose_program loose)) }
{
    let marks = offset(0, origins.marks.len())?;
    let loops = offset(0, origins.loops.len())?;
    let Loose {
        functions: old,
        objects,
        main,
        ..
    } = loose;
    drop(old);
    Ok(High {
        functions,
        objects,
        main,
        marks,
        loops,
    })
}

/// The program with its marks and loops numbered in the order in which they stand, and which of them are the copies of
/// those whose numbers they had.
pub fn renumber(alloc: Global, loose: Loose) -> Result<Carried, Memory>
    requires { IsLoose (loose_program loose) }
    ensures program { IfOk result (λ c. program_of c.program ≡ renumbered (loose_program loose)) }
    ensures copies { IfOk result (λ c. listing_of c.copies ≡ copies_in (loose_program loose)) }
{
    let mut origins = no_origins(alloc, loose.functions.len())?;
    let functions = functions_numbered(alloc, &loose.functions, &mut origins)?;
    match copies(alloc, loose.marks, loose.loops, &origins) {
        Ok(copies) => {
            let program = high(functions, &origins, loose)?;
            Ok(Carried { program, copies })
        }
        Err(memory) => {
            drop(functions);
            drop(loose);
            Err(memory)
        }
    }
}
