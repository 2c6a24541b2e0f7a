// Where the rows of arrays begin.
ghost use Rattle.std.specs.Prelude.{◌≡◌, map};
ghost use Rattle.low_ir.specs.View.{object_of};
ghost use Rattle.image_segments.specs.Rows.{spots, HaveSizes};
ghost use Rattle.image_segments.specs.Starts.{starts_behind, FitRegions};

use crate::rows::{Row, row_room};
use low_ir::object::Object;

/// Where the rows of arrays begin, by row, if the frames of functions end here.
pub fn starts(frames_end: u32, placed: &[bool], objects: &[Object]) -> [u32; 6]
    requires sizes { HaveSizes (map object_of objects.now) }
    requires fit { FitRegions frames_end (spots placed.now 0 (map object_of objects.now)) }
    ensures { result ≡ starts_behind frames_end (spots placed.now 0 (map object_of objects.now)) }
{
    let small_globals = frames_end + row_room(Row::SmallLocals, placed, objects);
    let large_globals = small_globals + row_room(Row::SmallGlobals, placed, objects);
    let large_locals = large_globals + row_room(Row::LargeGlobals, placed, objects);
    [
        0x7c_0000,
        0x1000_0000,
        frames_end,
        small_globals,
        large_globals,
        large_locals,
    ]
}
