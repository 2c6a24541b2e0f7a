// An image of code alone.
ghost use Rattle.std.specs.Prelude.{◌≡◌, ◌≤◌, IfOk, length, map};
ghost use Rattle.low_ir.specs.View.{object_of};
ghost use Rattle.layout_cases.specs.Rooms.{rooms};

use crate::arrays::{PLACED, objects};
use crate::telling::segment_line;
use image_segments::{Code, Data, image};
use low_ir::object::Object;
use rv_core::Image;
use std::alloc::Global;
use wcc_base::Memory;

/// Two instructions in flash, and one in the scratchpad.
fn code(alloc: Global) -> Result<Code, Memory>
    ensures flash { IfOk result (λ c. length c.flash.items ≡ 8) }
    ensures scratchpad { IfOk result (λ c. length c.scratchpad.items ≡ 4) }
{
    Ok(Code {
        flash: vec![in alloc; 0x13; 8]?,
        scratchpad: vec![in alloc; 0x13; 4]?,
    })
}

fn image_of(alloc: Global, frames_end: u32, objects: &[Object]) -> Result<Image, Memory>
    requires arrays { rooms (map object_of objects.now) ≤ 0x4000 }
    requires first { 0x2000_0000 ≤ frames_end }
    requires last { frames_end ≤ 0x2001_0000 }
{
    let code = code(alloc)?;
    let data = Data {
        frames_end,
        placed: &PLACED,
        objects,
    };
    image(alloc, 4, code, data)
}

fn segment_lines(alloc: Global, image: &Image) -> Result<String, Memory> {
    let mut lines = String::new(alloc);
    for segment in image.segments() {
        lines.push_str(segment_line(alloc, segment)?.as_str())?;
    }
    Ok(lines)
}

/// The segments of an image without frames and arrays: what is empty is left out.
pub fn code_alone(alloc: Global) -> Result<String, Memory> {
    let none = objects(alloc, &[])?;
    let image = image_of(alloc, 0x2000_0000, &none)?;
    let told = segment_lines(alloc, &image);
    drop(image);
    told
}
