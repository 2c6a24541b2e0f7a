// Whether kinds of elements are the same.
ghost use Rattle.std.specs.Prelude.{◌≡◌, true};
ghost use Rattle.low_ir.specs.Kinds.{kind_number, same_kind};

use low_ir::object::Kind;

fn number(kind: Kind) -> u8
    ensures { result ≡ kind_number kind }
{
    match kind {
        Kind::Unsigned8 => 0,
        Kind::Signed8 => 1,
        Kind::Unsigned16 => 2,
        Kind::Signed16 => 3,
        Kind::Word => 4,
    }
}

/// Whether two kinds are the same.
pub fn same_kind(a: Kind, b: Kind) -> bool
    ensures same { result ≡ same_kind a b }
    ensures one { result ≡ true → a ≡ b }
{
    number(a) == number(b)
}
