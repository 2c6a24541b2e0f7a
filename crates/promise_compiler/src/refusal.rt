// Why a source is not compiled.

use wcc_base::Memory;

/// Why a source is not compiled. Want of memory is `Memory`, whichever step it was.
#[derive(Drop)]
pub enum Refusal {
    /// The source has no program with facts.
    Front(facts_front::Refusal),
    /// Memory ran out.
    Memory,
}

impl From<Memory> for Refusal {
    ghost use Rattle.std.specs.Prelude.{◌≡◌};
    ghost use Rattle.promise_compiler.specs.declared.refusal.Refusal.TheVariants as Refusal;

    ghost from_gives = { λ _ e. e ≡ Refusal.Memory };

    fn from(_: Memory) -> Self {
        Refusal::Memory
    }
}
