// The rows of arrays.
ghost use Rattle.std.specs.Prelude.{◌≡◌, ◌+◌, ◌^◌, ◌<◌, false, map, IfOk, slice_index_or};
ghost use Rattle.low_ir.specs.Arrays.{bytes_of, array_size};
ghost use Rattle.low_ir.specs.View.{object_of};
ghost use Rattle.image_segments.specs.Rows.{row_by, row_of, row_number, spots, addresses, row_room, HaveSizes, HaveRoom};

use low_ir::object::{Object, Storage};
use std::alloc::Global;
use wcc_base::Memory;

/// A row of arrays that lie one behind the other, by where they are kept and how soon they are reached.
#[derive(Clone, Copy)]
pub enum Row {
    /// Constants, in flash.
    Constants,
    /// What is placed in the scratchpad.
    Scratchpad,
    SmallLocals,
    SmallGlobals,
    LargeGlobals,
    LargeLocals,
}

impl Row {
    /// The place of the row in lists by row.
    pub fn number(self) -> usize
        ensures value { result ≡ row_number self }
        ensures few { result < 6 }
    {
        match self {
            Row::Constants => 0,
            Row::Scratchpad => 1,
            Row::SmallLocals => 2,
            Row::SmallGlobals => 3,
            Row::LargeGlobals => 4,
            Row::LargeLocals => 5,
        }
    }
}

/// How many bytes an array takes in memory, a multiple of 4.
pub fn array_size(object: &Object) -> u64
    ensures { result ≡ array_size (object_of object.now) }
{
    (u64::from(object.kind.bytes()) * u64::from(object.length) + 3) / 4 * 4
}

/// The same in 32 bits.
pub fn room(object: &Object) -> u32
    requires { bytes_of (object_of object.now) + 3 < 2 ^ 32 }
    ensures { result ≡ array_size (object_of object.now) }
{
    array_size(object) as u32
}

fn row_by(storage: Storage, small: bool) -> Row
    ensures { result ≡ row_by storage small }
{
    match storage {
        Storage::Constant => Row::Constants,
        Storage::Global => {
            if small {
                Row::SmallGlobals
            } else {
                Row::LargeGlobals
            }
        }
        Storage::Local => {
            if small {
                Row::SmallLocals
            } else {
                Row::LargeLocals
            }
        }
    }
}

/// The row in which an array lies.
pub fn row_of(placed: bool, object: &Object) -> Row
    requires { bytes_of (object_of object.now) + 3 < 2 ^ 32 }
    ensures { result ≡ row_of placed (object_of object.now) }
{
    if placed {
        Row::Scratchpad
    } else {
        row_by(object.storage, room(object) <= 64)
    }
}

/// Whether an array is placed in the scratchpad; one that the list doesn't reach isn't.
pub fn is_placed(placed: &[bool], object: usize) -> bool
    ensures { result ≡ slice_index_or placed.now object false }
{
    match placed.get(object) {
        Some(placed) => *placed,
        None => false,
    }
}

/// The addresses of arrays, in rows that begin at these.
pub fn addresses(
    alloc: Global,
    starts: [u32; 6],
    placed: &[bool],
    objects: &[Object],
) -> Result<Vec<u32>, Memory>
    requires sizes { HaveSizes (map object_of objects.now) }
    requires room { HaveRoom starts (spots placed.now 0 (map object_of objects.now)) }
    ensures { IfOk result (λ a. a.items ≡ addresses starts (spots placed.now 0 (map object_of objects.now))) }
{
    let mut next = starts;
    let mut addresses = Vec::new(alloc);
    for (number, object) in objects.iter().enumerate() {
        let row = row_of(is_placed(placed, number), object).number();
        addresses.push(next[row])?;
        next[row] += room(object);
    }
    Ok(addresses)
}

/// What the arrays of a row take together.
pub fn row_room(row_asked: Row, placed: &[bool], objects: &[Object]) -> u32
    requires sizes { HaveSizes (map object_of objects.now) }
    requires room { row_room (row_number row_asked) (spots placed.now 0 (map object_of objects.now)) < 2 ^ 32 }
    ensures { result ≡ row_room (row_number row_asked) (spots placed.now 0 (map object_of objects.now)) }
{
    let mut bytes = 0;
    for (number, object) in objects.iter().enumerate() {
        if row_of(is_placed(placed, number), object).number() == row_asked.number() {
            bytes += room(object);
        }
    }
    bytes
}
