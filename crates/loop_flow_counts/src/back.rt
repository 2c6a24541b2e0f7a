// Jumps back.

/// A jump back by its place, and how often it is made, modulo 2^128.
#[derive(Clone, Copy)]
pub struct Back {
    pub place: usize,
    pub count: u128,
}
