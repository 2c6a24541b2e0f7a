// The regions of the address space.

/// A region of the address space: what stands there costs differently.
#[derive(Clone, Copy)]
pub enum Region {
    Flash,
    Spm,
    Ram,
}
