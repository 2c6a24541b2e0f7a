// Arrays of tables.
ghost use Rattle.std.specs.Prelude.{◌≤◌, IfOk, map};
ghost use Rattle.low_ir.specs.View.{object_of};
ghost use Rattle.layout_cases.specs.Rooms.{rooms};

use crate::rooms::rooms;
use low_ir::object::{Kind, Object, Storage};
use std::alloc::Global;
use wcc_base::Memory;

/// An array, and the first of its values.
#[derive(Clone, Copy)]
pub struct Array {
    pub kind: Kind,
    pub storage: Storage,
    pub length: u32,
    pub values: &'static [u32],
}

/// The arrays of a table, where they have room.
pub fn objects(alloc: Global, arrays: &[Array]) -> Result<Vec<Object>, Memory>
    ensures { IfOk result (λ objects. rooms (map object_of objects.items) ≤ 0x4000) }
{
    let mut objects = Vec::new(alloc);
    for array in arrays {
        objects.push(Object {
            kind: array.kind,
            storage: array.storage,
            length: array.length,
            values: array.values.to_vec(alloc)?,
        })?;
    }
    match rooms(&objects) {
        Some(bytes) => {
            if bytes <= 0x4000 {
                Ok(objects)
            } else {
                Err(Memory)
            }
        }
        None => Err(Memory),
    }
}

/// Arrays of each row: constants, one in the scratchpad, and small and large ones that are local or global.
pub const ARRAYS: [Array; 8] = [
    Array {
        kind: Kind::Word,
        storage: Storage::Constant,
        length: 3,
        values: &[5, 6, 0x0102_0304],
    },
    Array {
        kind: Kind::Unsigned8,
        storage: Storage::Global,
        length: 5,
        values: &[1, 255],
    },
    Array {
        kind: Kind::Signed16,
        storage: Storage::Global,
        length: 40,
        values: &[0xffff_8000],
    },
    Array {
        kind: Kind::Word,
        storage: Storage::Local,
        length: 2,
        values: &[],
    },
    Array {
        kind: Kind::Word,
        storage: Storage::Local,
        length: 17,
        values: &[],
    },
    Array {
        kind: Kind::Word,
        storage: Storage::Global,
        length: 1,
        values: &[9],
    },
    Array {
        kind: Kind::Unsigned16,
        storage: Storage::Constant,
        length: 3,
        values: &[0x1234],
    },
    Array {
        kind: Kind::Word,
        storage: Storage::Global,
        length: 16,
        values: &[0xffff_fffe],
    },
];

/// By array, whether it lies in the scratchpad: number 5 does.
pub const PLACED: [bool; 6] = [false, false, false, false, false, true];
