// What is known of a register.
use super::forms::Form;

/// What a register holds.
#[derive(Clone, Copy)]
pub enum Origin {
    /// Nothing is known of that.
    Any,
    /// A word.
    Word,
    /// A word below 2^32, as sums give.
    Small,
    /// A pointer into this array.
    Object(u32),
}

/// What a register holds, and that its number is what a form says, modulo 2^32. The form of a register by itself says nothing.
#[derive(Clone, Copy)]
pub struct Fact {
    pub register: u32,
    pub origin: Origin,
    pub form: Form,
}
