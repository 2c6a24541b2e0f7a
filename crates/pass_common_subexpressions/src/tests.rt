// Whether addresses are the same, and what they name.
ghost use Rattle.std.specs.Prelude.{◌≡◌, ℕ, [], false, true, map, slice_index_or};
ghost use Rattle.low_ir.specs.Effects.{address_reads, base_reads, is_member, offset_reads};
ghost use Rattle.low_ir.specs.Kinds.{same_kind};
ghost use Rattle.low_ir.specs.View.{address_of, base_of, claim_of};
ghost use Rattle.pass_common_subexpressions_law.specs.Facts.{AreApart, Spares, Touches};

use low_ir::instruction::{Address, Base};
use low_ir::object::Kind;
use low_parts::kinds::same_kind;

fn same_base(a: Base, b: Base) -> bool
    ensures { result ≡ true → base_of a ≡ base_of b }
{
    match a {
        Base::Object(object) => match b {
            Base::Object(other) => object == other,
            Base::Pointer { .. } => false,
        },
        Base::Pointer { register, claim } => match b {
            Base::Object(_) => false,
            Base::Pointer {
                register: other,
                claim: listed,
            } => register == other && claim == listed,
        },
    }
}

fn same_offset(a: Option<u32>, b: Option<u32>) -> bool
    ensures { result ≡ true → a ≡ b }
{
    match a {
        None => match b {
            None => true,
            Some(_) => false,
        },
        Some(register) => match b {
            None => false,
            Some(other) => register == other,
        },
    }
}

fn same_address(a: Address, b: Address) -> bool
    ensures { result ≡ true → address_of a ≡ address_of b }
{
    same_base(a.base, b.base) && same_offset(a.offset, b.offset) && a.displacement == b.displacement
}

/// Whether two loads are of the same kind, from the same address.
pub fn same_load(kind: Kind, a: Address, other: Kind, b: Address) -> bool
    ensures kind { result ≡ true → kind ≡ other }
    ensures address { result ≡ true → address_of a ≡ address_of b }
{
    same_kind(kind, other) && same_address(a, b)
}

/// Whether an object is one of a claim.
fn is_member(claim: &[u32], object: u32) -> bool
    ensures { result ≡ is_member claim.now object }
{
    for claimed in claim {
        if *claimed == object {
            return true;
        }
    }
    false
}

fn is_claimed(claims: &[Vec<u32>], claim: u32, object: u32) -> bool
    ensures { result ≡ is_member (slice_index_or (map claim_of claims.now) claim []) object }
{
    match claims.get(claim as usize) {
        None => false,
        Some(objects) => is_member(objects, object),
    }
}

/// Whether an access with this base may touch an object.
fn touches(claims: &[Vec<u32>], base: Base, object: u32) -> bool
    ensures { result ≡ false → Touches (map claim_of claims.now) (base_of base) object → ⊥ }
{
    match base {
        Base::Object(other) => other == object,
        Base::Pointer { claim, .. } => is_claimed(claims, claim, object),
    }
}

/// Whether no object may be touched with both bases, of which one is an object's; of two pointers nothing is known.
fn no_object_of_both(claims: &[Vec<u32>], a: Base, b: Base) -> bool
    ensures { result ≡ true → (o : ℕ) → Touches (map claim_of claims.now) (base_of a) o → Touches (map claim_of claims.now) (base_of b) o → ⊥ }
{
    match a {
        Base::Object(object) => !touches(claims, b, object),
        Base::Pointer { .. } => match b {
            Base::Object(object) => !touches(claims, a, object),
            Base::Pointer { .. } => false,
        },
    }
}

/// Whether two accesses are surely of different elements.
pub fn are_apart(claims: &[Vec<u32>], kind: Kind, a: Base, other: Kind, b: Base) -> bool
    ensures { result ≡ true → AreApart (map claim_of claims.now) kind (base_of a) other (base_of b) }
{
    if same_kind(kind, other) {
        no_object_of_both(claims, a, b)
    } else {
        true
    }
}

fn base_spares(base: Base, register: u32) -> bool
    ensures { result ≡ true → Spares register (base_reads (base_of base)) }
{
    match base {
        Base::Object(_) => true,
        Base::Pointer {
            register: pointer,
            ..
        } => pointer != register,
    }
}

fn offset_spares(offset: Option<u32>, register: u32) -> bool
    ensures { result ≡ true → Spares register (offset_reads offset) }
{
    match offset {
        None => true,
        Some(other) => other != register,
    }
}

/// Whether an address doesn't name a register.
pub fn is_spared(address: Address, register: u32) -> bool
    ensures { result ≡ true → Spares register (address_reads (address_of address)) }
{
    base_spares(address.base, register) && offset_spares(address.offset, register)
}
