// The arrays of a program, those of single elements among them.
ghost use Rattle.std.specs.Prelude.{◌≡◌};
ghost use Rattle.high_ir.specs.Words.{kind_number, same_kind};

/// What the elements of an array are: numbers of so many bits, with a sign or without.
#[derive(Clone, Copy)]
pub enum Kind {
    Unsigned8,
    Signed8,
    Unsigned16,
    Signed16,
    Word,
}

impl Kind {
    fn number(self) -> u8
        ensures { result ≡ kind_number self }
    {
        match self {
            Kind::Unsigned8 => 0,
            Kind::Signed8 => 1,
            Kind::Unsigned16 => 2,
            Kind::Signed16 => 3,
            Kind::Word => 4,
        }
    }

    /// Whether it is that kind.
    pub fn same_as(self, other: Kind) -> bool
        ensures { result ≡ same_kind self other }
    {
        self.number() == other.number()
    }
}

/// Where an array lives, and what it holds at first: a constant is only read, a global has its values
/// from the start, and a local array is unwritten then.
#[derive(Clone, Copy)]
pub enum Storage {
    Constant,
    Global,
    Local,
}

/// An array that lives as long as the program; a global scalar is one of length 1.
#[derive(Drop)]
pub struct Object {
    pub kind: Kind,
    pub storage: Storage,
    /// The number of its elements.
    pub length: u32,
    /// The first of its values where it isn't local; the others are 0.
    pub values: Vec<u32>,
}

/// Which array is meant: an object of the program by its number, or the one that the caller passed for
/// the array parameter of this number.
#[derive(Clone, Copy)]
pub enum Base {
    Object(u32),
    Parameter(u32),
}

/// An array as an access names it, with the kind of its elements.
#[derive(Clone, Copy)]
pub struct Array {
    pub kind: Kind,
    pub base: Base,
}
