// What is proved, by calls with empty bodies.
ghost use Rattle.image_segments.specs.RowLaws.{ArraysLie, ArraysFollow, RowsAreFull, ElementsStand};
ghost use Rattle.image_segments.specs.SegmentLaws.{SegmentsAreLoadable, SegmentsAreThere, NoOthers, ElementsAreRead, FramesAreOpen, ArraysAreOpen};

/// An array lies in its row, and behind those of lower numbers in it.
pub fn arrays_lie()
    ensures inside { ArraysLie }
    ensures apart { ArraysFollow }
{}

/// A row has as many bytes as the arrays in it take.
pub fn rows_are_full()
    ensures { RowsAreFull }
{}

/// Each element of an array stands in the bytes of the array's row, as far behind their beginning as the
/// array lies behind that of the row.
pub fn elements_stand()
    ensures { ElementsStand }
{}

/// The segments of code and data that lie in their regions can be loaded.
pub fn segments_are_loadable()
    ensures { SegmentsAreLoadable }
{}

/// Each of them that isn't empty is among those of an image, and no others are.
pub fn segments_are_there()
    ensures there { SegmentsAreThere }
    ensures others { NoOthers }
{}

/// Each element of an array is read as the value that is given for it, or 0; local arrays have none.
pub fn elements_are_read()
    ensures { ElementsAreRead }
{}

/// Frames, and arrays that aren't constant, lie in segments that are read and written.
pub fn memory_is_open()
    ensures frames { FramesAreOpen }
    ensures arrays { ArraysAreOpen }
{}
