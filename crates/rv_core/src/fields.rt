// The six fields that make up a word.

/// The fields of a word of the base formats.
#[derive(Clone, Copy)]
pub struct Fields {
    pub opcode: u32,
    pub rd: u32,
    pub funct3: u32,
    pub rs1: u32,
    pub rs2: u32,
    pub funct7: u32,
}
