// What becomes of a register that comes next.

/// A free machine register; one that is taken from the register that has it; or a slot.
#[derive(Clone, Copy)]
pub enum Choice {
    Free(u8),
    Instead(u8),
    InSlot,
}
