// What arrays hold at first.
ghost use Rattle.std.specs.Prelude.{◌≡◌, ◌+◌, ◌^◌, ◌<◌, ◌≤◌, ◌++◌, map, take, replicate, IfOk, OnOk};
ghost use Rattle.low_ir.specs.Arrays.{bytes_of};
ghost use Rattle.low_ir.specs.Kinds.{kind_bytes};
ghost use Rattle.low_ir.specs.View.{object_of};
ghost use Rattle.image_segments.specs.Rows.{row_number, HaveSizes};
ghost use Rattle.image_segments.specs.Contents.{elements_bytes, object_bytes, row_bytes};

use super::rows::{Row, is_placed, room, row_of};
use low_ir::object::{Kind, Object};
use std::alloc::Global;
use wcc_base::Memory;

fn element_size(kind: Kind) -> usize
    ensures value { result ≡ kind_bytes kind }
    ensures few { result ≤ 4 }
{
    match kind {
        Kind::Unsigned8 => 1,
        Kind::Signed8 => 1,
        Kind::Unsigned16 => 2,
        Kind::Signed16 => 2,
        Kind::Word => 4,
    }
}

fn put_elements(bytes: &mut Vec<u8>, kind: Kind, values: &[u32]) -> Result<(), Memory>
    ensures { OnOk result (bytes.new.items ≡ bytes.old.items ++ elements_bytes kind values.now) }
{
    let size = element_size(kind);
    for value in values {
        bytes.extend_from_slice(&value.to_le_bytes()[..size])?;
    }
    Ok(())
}

fn put_zeros(bytes: &mut Vec<u8>, count: usize) -> Result<(), Memory>
    ensures { OnOk result (bytes.new.items ≡ bytes.old.items ++ replicate count 0) }
{
    for _ in 0..count {
        bytes.push(0)?;
    }
    Ok(())
}

/// The values that an array has, of those that it gives.
fn given(object: &Object) -> &[u32]
    ensures { result.now ≡ take (object_of object.now).size (object_of object.now).values }
{
    let count = object.values.len().min(object.length as usize);
    &object.values[..count]
}

fn put_object(bytes: &mut Vec<u8>, object: &Object) -> Result<(), Memory>
    requires { bytes_of (object_of object.now) + 3 < 2 ^ 32 }
    ensures { OnOk result (bytes.new.items ≡ bytes.old.items ++ object_bytes (object_of object.now)) }
{
    let before = bytes.len();
    put_elements(bytes, object.kind, given(object))?;
    let written = bytes.len() - before;
    put_zeros(bytes, (room(object) as usize).saturating_sub(written))
}

/// The bytes of the arrays of a row.
pub fn row_bytes(
    alloc: Global,
    row_asked: Row,
    placed: &[bool],
    objects: &[Object],
) -> Result<Vec<u8>, Memory>
    requires { HaveSizes (map object_of objects.now) }
    ensures { IfOk result (λ bytes. bytes.items ≡ row_bytes placed.now (row_number row_asked) 0 (map object_of objects.now)) }
{
    let mut bytes = Vec::new(alloc);
    for (number, object) in objects.iter().enumerate() {
        if row_of(is_placed(placed, number), object).number() == row_asked.number() {
            put_object(&mut bytes, object)?;
        }
    }
    Ok(bytes)
}
