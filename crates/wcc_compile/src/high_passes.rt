// One pass after another.
ghost use Rattle.std.specs.Prelude.{◌≡◌, ◌+◌, ◌≤◌, ℕ, List, [], ◌∷◌, ◌++◌, length, IfOk};
ghost use Rattle.facts_sources.specs.Sources.{IsSource};
ghost use Rattle.types_tree.specs.View.{program_of as source_of};
ghost use Rattle.high_ir.specs.Programs.{program_of};
ghost use Rattle.high_ir.specs.Tree.{Program};
ghost use Rattle.high_pass.specs.Listing.{Listing, listing_of};
ghost use Rattle.compile_high_definitions.specs.Carried.{IsPlanned};
ghost use Rattle.wcc_compile.specs.Passes.{AreBegun, does};

use compile_stages::Stages;
use facts_front::Source;
use high_ir::Carried;
use high_pass::{Chained, Pass, chain};
use promise_compiler::Options;
use std::alloc::Global;
use wcc_base::Memory;

/// The stages of a source before any pass.
pub(crate) fn begun(alloc: Global, source: &Source, plan: Carried) -> Stages
    requires source { (text : List ℕ) × IsSource text source.now.typed.program.names.items (source_of source.now.typed.program) source.now.facts }
    requires planned { IsPlanned source.now.typed.program.names.items (source_of source.now.typed.program) source.now.facts (program_of plan.program) (listing_of plan.copies) }
    ensures begun { (options : Options) → AreBegun options source.now.typed.program.names.items (source_of source.now.typed.program) source.now.facts result }
    ensures place { length result.before.items ≡ 0 }
{
    Stages {
        before: Vec::new(alloc),
        last: plan,
    }
}

/// The stages with the answer of a pass behind them.
fn grown(before: Vec<Carried>, last: Carried, chained: Chained) -> Result<Stages, Memory>
    ensures before { IfOk result (λ s. s.before.items ≡ before.items ++ last ∷ []) }
    ensures program { IfOk result (λ s. s.last.program ≡ chained.step.program) }
    ensures copies { IfOk result (λ s. s.last.copies ≡ chained.whole) }
{
    let Chained { step, whole } = chained;
    let Carried { program, copies } = step;
    drop(copies);
    let mut before = before;
    match before.push(last) {
        Ok(()) => Ok(Stages {
            before,
            last: Carried {
                program,
                copies: whole,
            },
        }),
        Err(failed) => {
            drop(failed);
            drop(before);
            drop(program);
            drop(whole);
            Err(Memory)
        }
    }
}

/// The stages of a source with one pass more, which is the one at this place of the row with these options.
pub(crate) fn passed<P: Pass>(
    alloc: Global,
    source: &Source,
    stages: Stages,
    options: &Options,
    place: usize,
    pass: &P,
) -> Result<Stages, Memory>
    requires place { length stages.before.items ≡ place }
    requires few { place ≤ 4 }
    requires does { (old new : Program) (copies : Listing) → P.did pass.now old new copies → does options.now place old new copies }
    requires begun { AreBegun options.now source.now.typed.program.names.items (source_of source.now.typed.program) source.now.facts stages }
    ensures begun { IfOk result (AreBegun options.now source.now.typed.program.names.items (source_of source.now.typed.program) source.now.facts) }
    ensures place { IfOk result (λ s. length s.before.items ≡ place + 1) }
{
    let Stages { before, last } = stages;
    match chain(alloc, &last.program, &last.copies, pass) {
        Ok(chained) => {
            let stages = grown(before, last, chained)?;
            Ok(stages)
        }
        Err(memory) => {
            drop(before);
            drop(last);
            Err(memory)
        }
    }
}
