// The arrays of a program, which stay as they are.
ghost use Rattle.std.specs.Prelude.{◌≡◌, IfOk, map};
ghost use Rattle.high_ir.specs.View.{object_of};

use high_ir::object::Object;
use std::alloc::Global;
use wcc_base::Memory;

fn copied_object(alloc: Global, object: &Object) -> Result<Object, Memory>
    ensures { IfOk result (λ o. object_of o ≡ object_of object.now) }
{
    Ok(Object {
        kind: object.kind,
        storage: object.storage,
        length: object.length,
        values: Vec::from_slice(alloc, &object.values)?,
    })
}

pub fn copied_objects(alloc: Global, objects: &[Object]) -> Result<Vec<Object>, Memory>
    ensures { IfOk result (λ v. map object_of v.items ≡ map object_of objects.now) }
{
    let mut copies = Vec::new(alloc);
    for object in objects {
        copies.push(copied_object(alloc, object)?)?;
    }
    Ok(copies)
}
