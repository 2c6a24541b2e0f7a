/// What a mark is that unrolling adds.
#[derive(Clone, Copy)]
pub enum Made {
    /// A copy of the mark of this number.
    CopyOf(u32),
    /// The mark behind all starts of the loop of this number.
    Behind(u32),
}
