// The arrays of a program.
ghost use Rattle.std.specs.Prelude.{◌≡◌, IfOk};
ghost use Rattle.high_ir.specs.View as high;
ghost use Rattle.low_ir.specs.View as low;
ghost use Rattle.lower_definition.specs.Objects.{kind_of, object_of, scale_of, storage_of};

use high_ir::object::{Kind as HighKind, Object as HighObject, Storage as HighStorage};
use low_ir::object::{Kind, Object, Storage};
use std::alloc::Global;
use wcc_base::Memory;

pub fn kind_of(kind: HighKind) -> Kind
    ensures { result ≡ kind_of kind }
{
    match kind {
        HighKind::Unsigned8 => Kind::Unsigned8,
        HighKind::Signed8 => Kind::Signed8,
        HighKind::Unsigned16 => Kind::Unsigned16,
        HighKind::Signed16 => Kind::Signed16,
        HighKind::Word => Kind::Word,
    }
}

fn storage_of(storage: HighStorage) -> Storage
    ensures { result ≡ storage_of storage }
{
    match storage {
        HighStorage::Constant => Storage::Constant,
        HighStorage::Global => Storage::Global,
        HighStorage::Local => Storage::Local,
    }
}

/// An array, with a copy of its first values.
pub fn object_of(alloc: Global, object: &HighObject) -> Result<Object, Memory>
    ensures { IfOk result (λ o. low.object_of o ≡ object_of (high.object_of object.now)) }
{
    Ok(Object {
        kind: kind_of(object.kind),
        storage: storage_of(object.storage),
        length: object.length,
        values: Vec::from_slice(alloc, &object.values)?,
    })
}

/// The bytes of an element, as a power of two.
pub fn scale_of(kind: HighKind) -> u32
    ensures { result ≡ scale_of kind }
{
    match kind {
        HighKind::Unsigned8 => 0,
        HighKind::Signed8 => 0,
        HighKind::Unsigned16 => 1,
        HighKind::Signed16 => 1,
        HighKind::Word => 2,
    }
}
