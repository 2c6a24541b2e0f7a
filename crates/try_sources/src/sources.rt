// From the bytes of a source to its program and its meaning.
ghost use Rattle.std.specs.Prelude.{ℕ, false, List, IfErr, IfOk};
ghost use Rattle.facts_front.specs.Fronts.{Fails as IsUnread};
ghost use Rattle.facts_sources.specs.Sources.{IsSource};
ghost use Rattle.types_tree.specs.View.{program_of};
ghost use Rattle.try_sources.specs.Sources.{Fails, IsMade, IsMeant};

use crate::fault::Fault;
use c_meaning::eval;
use facts_front::{Refusal, Source, read_source};
use high_ir::Carried;
use high_make::make;
use meaning_semantics::SourceRun;
use std::alloc::Global;

fn fault_of(refusal: &Refusal) -> Fault
    ensures { (source : List ℕ) → IsUnread false source refusal.now → Fails source result }
{
    match refusal {
        Refusal::Memory => Fault::Memory,
        _ => Fault::Refused,
    }
}

/// The typed program of a source, and its facts.
#[tactic(auto, using(facts_front::proofs::Ways::one_way))]
pub fn read(alloc: Global, text: &[u8]) -> Result<Source, Fault>
    ensures source { IfOk result (λ s. IsSource text.now s.typed.program.names.items (program_of s.typed.program) s.facts) }
    ensures err { IfErr result (Fails text.now) }
{
    match read_source(alloc, text, false) {
        Ok(source) => Ok(source),
        Err(refusal) => {
            let fault = fault_of(&refusal);
            drop(refusal);
            Err(fault)
        }
    }
}

/// The program of a source in the high form, and what became in it of the source's functions, markers and loops.
pub fn made_of(alloc: Global, text: &[u8]) -> Result<Carried, Fault>
    ensures made { IfOk result (IsMade text.now) }
    ensures err { IfErr result (Fails text.now) }
{
    let source = match read(alloc, text) {
        Ok(source) => source,
        Err(fault) => return Err(fault),
    };
    let made = make(alloc, &source.typed, &source.facts);
    source.let_go();
    match made {
        Ok(made) => Ok(made),
        Err(_) => Err(Fault::Memory),
    }
}

/// What a source means on an input.
pub fn meaning_of(alloc: Global, text: &[u8], input: &[u8]) -> Result<SourceRun, Fault>
    ensures meant { IfOk result (IsMeant text.now input.now) }
    ensures err { IfErr result (Fails text.now) }
{
    let source = match read(alloc, text) {
        Ok(source) => source,
        Err(fault) => return Err(fault),
    };
    let run = eval(alloc, &source.typed.program, &source.facts, input);
    source.let_go();
    match run {
        Ok(run) => Ok(run),
        Err(_) => Err(Fault::Memory),
    }
}
