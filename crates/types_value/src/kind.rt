ghost use Rattle.std.specs.Prelude.{◌≡◌};
ghost use Rattle.types_value.specs.Kinds.{bytes, common, converted, is_signed, is_void, joined, kind_number, promoted, same_kind};

use wcc_base::words::sign_filled;

/// An integer type, or void (C11 6.2.5).
#[derive(Clone, Copy)]
pub enum Kind {
    Void,
    /// It has no sign, as `UnsignedChar` has none.
    Char,
    SignedChar,
    UnsignedChar,
    Short,
    UnsignedShort,
    Int,
    Unsigned,
    Long,
    UnsignedLong,
}

impl Kind {
    fn number(self) -> u8
        ensures { result ≡ kind_number self }
    {
        match self {
            Kind::Void => 0,
            Kind::Char => 1,
            Kind::SignedChar => 2,
            Kind::UnsignedChar => 3,
            Kind::Short => 4,
            Kind::UnsignedShort => 5,
            Kind::Int => 6,
            Kind::Unsigned => 7,
            Kind::Long => 8,
            Kind::UnsignedLong => 9,
        }
    }

    /// Whether two types are the same. `Char` and `UnsignedChar` are different types, and so are `Int` and `Long`.
    pub fn is(self, other: Kind) -> bool
        ensures { result ≡ same_kind self other }
    {
        self.number() == other.number()
    }

    pub fn is_void(self) -> bool
        ensures { result ≡ is_void self }
    {
        matches!(self, Kind::Void)
    }

    /// The bytes of a value.
    pub fn bytes(self) -> u32
        ensures { result ≡ bytes self }
    {
        match self {
            Kind::Void => 0,
            Kind::Char => 1,
            Kind::SignedChar => 1,
            Kind::UnsignedChar => 1,
            Kind::Short => 2,
            Kind::UnsignedShort => 2,
            Kind::Int => 4,
            Kind::Unsigned => 4,
            Kind::Long => 4,
            Kind::UnsignedLong => 4,
        }
    }

    pub fn is_signed(self) -> bool
        ensures { result ≡ is_signed self }
    {
        matches!(
            self,
            Kind::SignedChar | Kind::Short | Kind::Int | Kind::Long
        )
    }

    /// The type that a value of this one is promoted to (C11 6.3.1.1).
    pub fn promoted(self) -> Kind
        ensures { result ≡ promoted self }
    {
        match self {
            Kind::Unsigned => Kind::Unsigned,
            Kind::Long => Kind::Long,
            Kind::UnsignedLong => Kind::UnsignedLong,
            _ => Kind::Int,
        }
    }

    fn joined(self, other: Kind) -> Kind
        ensures { result ≡ joined self other }
    {
        match (self, other) {
            (Kind::Int, kind) => kind,
            (kind, Kind::Int) => kind,
            (Kind::Unsigned, Kind::Unsigned) => Kind::Unsigned,
            (Kind::Long, Kind::Long) => Kind::Long,
            (_, _) => Kind::UnsignedLong,
        }
    }

    /// The type to which the usual conversions bring values of two types (C11 6.3.1.8).
    pub fn common(self, other: Kind) -> Kind
        ensures { result ≡ common self other }
    {
        self.promoted().joined(other.promoted())
    }

    /// A word converted to this type (C11 6.3.1.3).
    pub fn convert(self, word: u32) -> u32
        ensures { result ≡ converted self word }
    {
        match self {
            Kind::Char => word % 256,
            Kind::SignedChar => sign_filled(word, 8),
            Kind::UnsignedChar => word % 256,
            Kind::Short => sign_filled(word, 16),
            Kind::UnsignedShort => word % 65_536,
            _ => word,
        }
    }
}
