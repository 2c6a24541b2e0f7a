// Whether scalars may be in registers.
ghost use Rattle.std.specs.Prelude.{◌≡◌, ℕ, true, false, [], map, slice_index_or, All};
ghost use Rattle.low_ir.specs.declared.object.Storage.TheVariants.{Global};
ghost use Rattle.low_ir.specs.Effects.{is_member};
ghost use Rattle.low_ir.specs.View.{address_of, base_of, block_of, claim_of, instr_of, object_of};
ghost use Rattle.pass_register_promotion_law.specs.Suiting.{AreDistinct, AreScalars, BaseSuits, BlockKept, IsKept, IsScalar, IsTold, IsWhole, StoreSuits, is_only_read, is_resident, kind_in};
ghost use Rattle.pass_register_promotion.specs.Residents.{residents_of, row_of, table_of, told_in};

use super::residents::Resident;
use low_ir::instruction::{Address, Base};
use low_ir::object::{Kind, Object, Storage};
use low_ir::{Block, Instr};
use low_parts::kinds::same_kind;

/// Whether an object has a register.
fn is_resident(residents: &[Resident], object: u32) -> bool
    ensures { result ≡ is_resident (residents_of residents.now) object }
{
    for resident in residents {
        if resident.object == object {
            return true;
        }
    }
    false
}

/// The kind of an object that has a register.
fn kind_in(residents: &[Resident], object: u32) -> Option<Kind>
    ensures { result ≡ kind_in (residents_of residents.now) object }
{
    for resident in residents {
        if resident.object == object {
            return Some(resident.kind);
        }
    }
    None
}

/// Whether an object has a register and isn't stored back.
fn is_only_read(residents: &[Resident], object: u32) -> bool
    ensures { result ≡ is_only_read (residents_of residents.now) object }
{
    for resident in residents {
        if resident.object == object {
            return !resident.written;
        }
    }
    false
}

/// Whether none of a claim's objects has a register.
fn has_none(residents: &[Resident], claim: &[u32]) -> bool
    ensures { result ≡ true → (o : ℕ) → is_member claim.now o ≡ true → is_resident (residents_of residents.now) o ≡ false }
{
    for object in claim {
        if is_resident(residents, *object) {
            return false;
        }
    }
    true
}

/// The objects of a claim.
fn claimed(claims: &[Vec<u32>], claim: u32) -> &[u32]
    ensures { result.now ≡ slice_index_or (map claim_of claims.now) claim [] }
{
    match claims.get(claim as usize) {
        None => &[],
        Some(objects) => objects,
    }
}

fn is_whole(residents: &[Resident], object: u32, kind: Kind, address: Address) -> bool
    ensures { result ≡ true → IsWhole (residents_of residents.now) object kind (address_of address) }
{
    match kind_in(residents, object) {
        None => false,
        Some(own) => same_kind(own, kind) && address.offset.is_none() && address.displacement == 0,
    }
}

/// Whether what an access touches has no register, or it is of a whole scalar.
fn base_suits(claims: &[Vec<u32>], residents: &[Resident], kind: Kind, address: Address) -> bool
    ensures { result ≡ true → BaseSuits (map claim_of claims.now) (residents_of residents.now) kind (address_of address) (base_of address.base) }
{
    match address.base {
        Base::Object(object) => {
            if is_resident(residents, object) {
                is_whole(residents, object, kind, address)
            } else {
                true
            }
        }
        Base::Pointer { claim, .. } => has_none(residents, claimed(claims, claim)),
    }
}

/// Whether what is stored to is stored back.
fn store_suits(residents: &[Resident], base: Base) -> bool
    ensures { result ≡ true → StoreSuits (residents_of residents.now) (base_of base) }
{
    match base {
        Base::Object(object) => !is_only_read(residents, object),
        Base::Pointer { .. } => true,
    }
}

/// Whether a function may touch an object.
fn is_told(row: &[bool], object: u32) -> bool
    ensures { result ≡ told_in row.now object }
{
    match row.get(object as usize) {
        None => false,
        Some(told) => *told,
    }
}

fn all_told(row: &[bool], claim: &[u32]) -> bool
    ensures { result ≡ true → (o : ℕ) → is_member claim.now o ≡ true → told_in row.now o ≡ true }
{
    for object in claim {
        if !is_told(row, *object) {
            return false;
        }
    }
    true
}

/// Whether what an access may touch is told.
fn base_told(claims: &[Vec<u32>], row: &[bool], base: Base) -> bool
    ensures { result ≡ true → IsTold (map claim_of claims.now) (told_in row.now) (base_of base) }
{
    match base {
        Base::Object(object) => is_told(row, object),
        Base::Pointer { claim, .. } => all_told(row, claimed(claims, claim)),
    }
}

/// Whether what one function may touch is told of another one.
fn row_told(callee: &[bool], caller: &[bool]) -> bool
    ensures { result ≡ true → (o : ℕ) → told_in callee.now o ≡ true → told_in caller.now o ≡ true }
{
    let mut object = 0;
    for told in callee {
        if *told && !matches_told(caller, object) {
            return false;
        }
        object += 1;
    }
    true
}

fn matches_told(row: &[bool], object: usize) -> bool
    ensures { result ≡ told_in row.now object }
{
    match row.get(object) {
        None => false,
        Some(told) => *told,
    }
}

/// Whether a function that is called touches nothing that has a register.
fn call_suits(row: &[bool], residents: &[Resident]) -> bool
    ensures { result ≡ true → (o : ℕ) → is_resident (residents_of residents.now) o ≡ true → told_in row.now o ≡ false }
{
    for resident in residents {
        if is_told(row, resident.object) {
            return false;
        }
    }
    true
}

/// Whether what has a register is told of the function.
pub fn are_told(row: &[bool], residents: &[Resident]) -> bool
    ensures { result ≡ true → (o : ℕ) → is_resident (residents_of residents.now) o ≡ true → told_in row.now o ≡ true }
{
    for resident in residents {
        if !is_told(row, resident.object) {
            return false;
        }
    }
    true
}

pub fn row_at(rows: &[Vec<bool>], function: u32) -> &[bool]
    ensures { result.now ≡ slice_index_or (map row_of rows.now) function [] }
{
    match rows.get(function as usize) {
        None => &[],
        Some(row) => row,
    }
}

/// Whether an instruction of a function leaves to registers what they stand for, and touches only what is told.
fn is_kept(
    claims: &[Vec<u32>],
    rows: &[Vec<bool>],
    function: u32,
    residents: &[Resident],
    instr: &Instr,
) -> bool
    ensures { result ≡ true → IsKept (map claim_of claims.now) (table_of (map row_of rows.now)) function (residents_of residents.now) (instr_of instr.now) }
{
    match instr {
        Instr::Load { kind, address, .. } => {
            base_told(claims, row_at(rows, function), address.base)
                && base_suits(claims, residents, *kind, *address)
        }
        Instr::Store { kind, address, .. } => {
            base_told(claims, row_at(rows, function), address.base)
                && base_suits(claims, residents, *kind, *address)
                && store_suits(residents, address.base)
        }
        Instr::Call {
            function: callee,
            ..
        } => {
            row_told(row_at(rows, *callee), row_at(rows, function))
                && call_suits(row_at(rows, *callee), residents)
        }
        _ => true,
    }
}

fn block_kept(
    claims: &[Vec<u32>],
    rows: &[Vec<bool>],
    function: u32,
    residents: &[Resident],
    block: &Block,
) -> bool
    ensures { result ≡ true → BlockKept (map claim_of claims.now) (table_of (map row_of rows.now)) function (residents_of residents.now) (block_of block.now) }
{
    for instr in &block.code {
        if !is_kept(claims, rows, function, residents, instr) {
            return false;
        }
    }
    true
}

/// Whether all instructions of a function are kept.
pub fn blocks_kept(
    claims: &[Vec<u32>],
    rows: &[Vec<bool>],
    function: u32,
    residents: &[Resident],
    blocks: &[Block],
) -> bool
    ensures { result ≡ true → All (BlockKept (map claim_of claims.now) (table_of (map row_of rows.now)) function (residents_of residents.now)) (map block_of blocks.now) }
{
    for block in blocks {
        if !block_kept(claims, rows, function, residents, block) {
            return false;
        }
    }
    true
}

/// Whether an object is a global of a kind and no array.
fn is_global(object: &Object, kind: Kind) -> bool
    ensures alike { result ≡ true → object.now.kind ≡ kind }
    ensures storage { result ≡ true → object.now.storage ≡ Global }
    ensures size { result ≡ true → object.now.length ≡ 1 }
{
    match object.storage {
        Storage::Constant => false,
        Storage::Local => false,
        Storage::Global => object.length == 1 && same_kind(object.kind, kind),
    }
}

/// Whether a scalar is a global of its kind and no array.
fn is_scalar(objects: &[Object], resident: Resident) -> bool
    ensures { result ≡ true → IsScalar (map object_of objects.now) resident.object resident.kind }
{
    match objects.get(resident.object as usize) {
        None => false,
        Some(object) => is_global(object, resident.kind),
    }
}

pub fn are_scalars(objects: &[Object], residents: &[Resident]) -> bool
    ensures { result ≡ true → AreScalars (map object_of objects.now) (residents_of residents.now) }
{
    for resident in residents {
        if !is_scalar(objects, *resident) {
            return false;
        }
    }
    true
}

/// Whether each object has one register.
pub fn are_distinct(residents: &[Resident]) -> bool
    ensures { result ≡ true → AreDistinct (residents_of residents.now) }
{
    let mut rest = residents;
    while let Some((first, others)) = rest.split_first() {
        if is_resident(others, first.object) {
            return false;
        }
        rest = others;
    }
    true
}
