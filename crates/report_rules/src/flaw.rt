// Why a line may not stand.
use wcc_base::Memory;

/// Why a line may not stand.
#[derive(Clone, Copy)]
pub enum Flaw {
    /// Its words haven't the form of its kind, or it breaks the order of the lines.
    Form,
    /// Form and order are right, and a number is out of its range.
    Range,
    /// Memory ran out.
    Memory,
}

impl From<Memory> for Flaw {
    ghost use Rattle.std.specs.Prelude.{◌≡◌};
    ghost use Rattle.report_rules.specs.declared.flaw.Flaw.TheVariants as Flaw;

    ghost from_gives = { λ _ e. e ≡ Flaw.Memory };

    fn from(_: Memory) -> Self {
        Flaw::Memory
    }
}
