// Verdicts on certificates.

/// A row of the checker that fails, with the numbers that its line prints.
#[derive(Clone, Copy)]
pub enum Row {
    /// The least address that is reached and has no potential, or the reverse.
    Missing { at: u32 },
    /// The first claim with a multiplier of the wrong sign.
    Sign { claim: u32 },
    /// The absolute values of the row of a move come to 2^126 or more.
    Wide { at: u32 },
    /// The price of a move is more than its row covers.
    Move { at: u32, number: u8 },
    /// The cycles are not the whole part of the entry's potential over the scale.
    Value,
    /// The least address where the listed flow makes a move that isn't there, or isn't balanced.
    Flow { at: u32 },
    /// The first claim that the counts of the listed flow don't keep.
    Unmet { claim: u32 },
    /// The value of the listed flow is not the entry's potential over the scale.
    Greatest,
    /// The entry's potential isn't negative.
    Empty,
}

/// What the checker says of a certificate.
#[derive(Clone, Copy)]
pub enum Verdict {
    /// Each row holds: no kept run takes more cycles, and whether a flow reaches them.
    Yes { cycles: u64, greatest: bool },
    /// The first row that fails.
    No { row: Row },
}
