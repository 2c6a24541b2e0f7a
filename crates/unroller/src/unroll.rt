// The pass.
ghost use Rattle.std.specs.Prelude.{◌≡◌, ◌+◌, ◌<◌, ◌≤◌, ◌^◌, IfOk, map, sum_by};
ghost use Rattle.std.specs.List.{range_with_len};
ghost use Rattle.high_ir.specs.Programs.{program_of};
ghost use Rattle.high_ir.specs.View.{statement_of};
ghost use Rattle.high_pass.specs.Law.{IsLawful};
ghost use Rattle.high_pass.specs.Listing.{listing_of, loop_entry};
ghost use Rattle.high_unrolled.specs.Programs.{busy, copies_of, nevers_from, program_spread, unrolled};
ghost use Rattle.high_unrolled.specs.Promise.{Unrolls};
ghost use Rattle.unroller.specs.View.{at_start, continued, progress_of};

use super::listing::{mark_copies, never_marks};
use super::measure::busy;
use super::spreading::functions;
use super::walk::Walk;
use high_ir::{Carried, Copies, Function, High};
use high_parts::objects::copied_objects;
use high_pass::Pass;
use std::alloc::Global;
use wcc_base::{MOST_OPERATIONS, Memory};

/// Each innermost loop by a factor, while the budgets hold: some starts, and then so many at a time.
#[derive(Drop)]
pub struct Unroll {
    pub factor: u32,
    ghost least: { 1 ≤ factor },
    ghost most: { factor ≤ 64 },
}

/// How many operations functions have, where their idle loops are unrolled.
fn busy_in(functions: &[Function]) -> u32
    requires { sum_by (λ f. busy (statement_of f.body) + 1) functions.now < 2 ^ 32 }
    ensures { result ≡ sum_by (λ f. busy (statement_of f.body) + 1) functions.now }
{
    let mut sum = 0;
    for function in functions {
        sum += busy(&function.body) + 1;
    }
    sum
}

/// The walk over a program before its first function.
fn begun(alloc: Global, old: &High) -> Walk
    ensures { progress_of result ≡ at_start (program_of old.now) }
{
    let busy = busy_in(&old.functions);
    Walk {
        alloc,
        room: MOST_OPERATIONS.saturating_sub(busy),
        marks: old.marks,
        loops: 0,
        made: Vec::new(alloc),
        entries: Vec::new(alloc),
    }
}

/// A program with its innermost loops by a factor, and the walk that came over it.
fn program(alloc: Global, factor: u32, old: &High) -> Result<(High, Walk), Memory>
    requires { 1 ≤ factor }
    ensures program { IfOk result (λ r. program_of r.0 ≡ unrolled factor (program_of old.now)) }
    ensures progress { IfOk result (λ r. progress_of r.1 ≡ continued (at_start (program_of old.now)) (program_spread factor (program_of old.now))) }
{
    let objects = copied_objects(alloc, &old.objects)?;
    let mut walk = begun(alloc, old);
    match functions(&mut walk, factor, &old.functions) {
        Ok(functions) => {
            let program = High {
                functions,
                objects,
                main: old.main,
                marks: walk.marks,
                loops: walk.loops,
            };
            Ok((program, walk))
        }
        Err(memory) => {
            drop(objects);
            drop(walk);
            Err(memory)
        }
    }
}

/// What became of marks and loops, where the old program has so many marks.
fn copies(alloc: Global, factor: u32, marks: u32, walk: Walk) -> Result<Copies, Memory>
    ensures { IfOk result (λ c. listing_of c ≡ record { marks = map (copies_of marks walk.made.items) (range_with_len 0 marks); loops = map loop_entry walk.entries.items; nevers = nevers_from factor marks walk.made.items }) }
{
    let Walk { made, entries, .. } = walk;
    let nevers = never_marks(alloc, factor, marks, &made)?;
    let marks = mark_copies(alloc, marks, &made)?;
    Ok(Copies {
        marks,
        loops: entries,
        nevers,
    })
}

/// The program with its innermost loops by the factor, and what became of marks and loops.
fn unrolled(alloc: Global, factor: u32, old: &High) -> Result<Carried, Memory>
    requires least { 1 ≤ factor }
    requires most { factor ≤ 64 }
    ensures law { IfOk result (λ a. IsLawful (program_of old.now) (program_of a.program) (listing_of a.copies)) }
    ensures unrolls { IfOk result (λ a. Unrolls factor (program_of old.now) (program_of a.program) (listing_of a.copies)) }
{
    let (program, walk) = program(alloc, factor, old)?;
    match copies(alloc, factor, old.marks, walk) {
        Ok(copies) => Ok(Carried { program, copies }),
        Err(memory) => {
            drop(program);
            Err(memory)
        }
    }
}

impl Pass for Unroll {
    ghost use Rattle.high_unrolled.specs.Promise.{Unrolls};

    ghost did = { λ pass old new copies. Unrolls pass.factor old new copies };

    fn run(&self, alloc: Global, old: &High) -> Result<Carried, Memory> {
        unrolled(alloc, self.factor, old)
    }
}
