// How the run of a source ends.
use wcc_base::Items;

/// What a run did not keep, at the place of the loop's keyword or of the restriction's pragma.
#[derive(Clone, Copy)]
pub enum Unkept {
    Loop { at: u32 },
    Restriction { at: u32 },
}

/// The run of a source on an input.
#[derive(Drop)]
pub enum SourceRun {
    /// Main has ended with this value. `counts` has the functions in the order of their definitions, and then the
    /// markers in source order.
    Done {
        output: Items<u8>,
        value: i32,
        counts: Items<u64>,
    },
    /// What C leaves undefined, by the number of its rule, at the place of its expression.
    Undefined {
        rule: u8,
        at: u32,
    },
    /// A loop that was left too early or went on too long, or a restriction that the counts violate.
    Broken {
        what: Unkept,
    },
}
