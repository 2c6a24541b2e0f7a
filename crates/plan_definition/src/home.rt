use high_ir::object::Array;

/// Where an object of the source lives.
#[derive(Clone, Copy)]
pub enum Home {
    /// The variable of this number of the frame of its function.
    Frame(u32),
    /// An array; a scalar of file level is the only element of one.
    Memory(Array),
}
