// What runs of programs hold and note.

/// What a register holds: a word, or a pointer, which is an object by its number and so many bytes
/// behind its first.
#[derive(Clone, Copy)]
pub enum Value {
    Word(u32),
    Pointer { object: u32, bytes: u32 },
}

/// That a block of a function began.
#[derive(Clone, Copy)]
pub struct Began {
    pub function: u32,
    pub block: u32,
}
