/// What the code of an expression is for.
#[derive(Clone, Copy)]
pub enum Purpose {
    /// Its value.
    Value,
    /// What it does, where its value is dropped.
    Effect,
    /// To leave the block of this depth where its value is 0.
    Unless { depth: u32 },
    /// To leave the block of this depth where its value isn't 0.
    When { depth: u32 },
}
