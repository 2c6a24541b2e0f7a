// The arrays of a program, those of single elements among them.
ghost use Rattle.std.specs.Prelude.{◌≡◌};
ghost use Rattle.low_ir.specs.Kinds.{converted, kind_bytes};

use rv_core::Width;

/// What the elements of an array are: numbers of so many bits, with a sign or without.
#[derive(Clone, Copy)]
pub enum Kind {
    Unsigned8,
    Signed8,
    Unsigned16,
    Signed16,
    Word,
}

impl Kind {
    /// How many bytes an element takes.
    pub fn bytes(self) -> u32
        ensures { result ≡ kind_bytes self }
    {
        match self {
            Kind::Unsigned8 => 1,
            Kind::Signed8 => 1,
            Kind::Unsigned16 => 2,
            Kind::Signed16 => 2,
            Kind::Word => 4,
        }
    }

    /// What an element of the kind keeps of a word.
    #[tactic(auto, unfolding(crate::specs::Kinds::converted))]
    pub fn convert(self, word: u32) -> u32
        ensures { result ≡ converted self word }
    {
        match self {
            Kind::Unsigned8 => Width::Byte.extended(false, word % 256),
            Kind::Signed8 => Width::Byte.extended(true, word % 256),
            Kind::Unsigned16 => Width::Half.extended(false, word % 65536),
            Kind::Signed16 => Width::Half.extended(true, word % 65536),
            Kind::Word => Width::Word.extended(false, word),
        }
    }
}

/// Where an array lives, and what it holds at first: a constant is only read, a global has its values
/// from the start, and a local array is unwritten then.
#[derive(Clone, Copy)]
pub enum Storage {
    Constant,
    Global,
    Local,
}

/// An array that lives as long as the program; a global scalar is one of length 1.
#[derive(Drop)]
pub struct Object {
    pub kind: Kind,
    pub storage: Storage,
    /// The number of its elements.
    pub length: u32,
    /// The first of its values where it isn't local; the others are 0.
    pub values: Vec<u32>,
}
