// The source.
ghost use Rattle.std.specs.Prelude.{IfErr, IfOk};
ghost use Rattle.facts_sources.specs.Sources.{IsSourceBy};
ghost use Rattle.types_tree.specs.View.{program_of};
ghost use Rattle.promise_compiler.specs.Refusals.{Fails};

use facts_front::{Source, read_source};
use promise_compiler::Refusal;
use std::alloc::Global;

/// The typed program of a source, and its facts.
pub(crate) fn read(alloc: Global, text: &[u8], derive: bool) -> Result<Source, Refusal>
    ensures source { IfOk result (λ s. IsSourceBy derive text.now s.typed.program.names.items (program_of s.typed.program) s.facts) }
    ensures err { IfErr result (Fails derive text.now) }
{
    match read_source(alloc, text, derive) {
        Ok(source) => Ok(source),
        Err(facts_front::Refusal::Memory) => Err(Refusal::Memory),
        Err(refusal) => Err(Refusal::Front(refusal)),
    }
}
