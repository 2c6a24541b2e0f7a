// How loops and functions lie in memory.

/// A loop as it lies in memory: its header, its back jump, the loop around it, and its first and
/// last address.
#[derive(Clone, Copy)]
pub struct LoopShape {
    pub header: u32,
    pub back: u32,
    pub parent: Option<u32>,
    pub first: u32,
    pub last: u32,
}

/// A function as it lies in memory, from `first` up to `end`.
#[derive(Clone, Copy)]
pub struct Span {
    pub first: u32,
    pub end: u32,
}
