// The bytes that frames, arrays and placed code take at most.
ghost use Rattle.std.specs.Prelude.{◌≡◌, map, slice_index_or, false};
ghost use Rattle.low_ir.specs.Arrays.{array_size};
ghost use Rattle.low_ir.specs.Effects.{can_store};
ghost use Rattle.low_ir.specs.Places.{place_functions};
ghost use Rattle.low_ir.specs.Placings.{assignment_of};
ghost use Rattle.low_ir.specs.View.{function_of, object_of};
ghost use Rattle.image_definition.specs.Sizes.{constants_room, frames_room, sizes_placed, variables_room};
ghost use Rattle.image_fitting.specs.Spending.{Spends};

use super::code::spend;
use image_segments::array_size;
use low_ir::LowReg;
use low_ir::object::{Object, Storage};

/// Whether a placement names a function or an array; what the list doesn't reach, it doesn't.
pub fn is_placed(placed: &[bool], number: usize) -> bool
    ensures { result ≡ slice_index_or placed.now number false }
{
    match placed.get(number) {
        Some(placed) => *placed,
        None => false,
    }
}

fn is_variable(storage: Storage) -> bool
    ensures { result ≡ can_store storage }
{
    match storage {
        Storage::Constant => false,
        Storage::Global => true,
        Storage::Local => true,
    }
}

/// Takes the room of the constant arrays.
pub fn spend_constants(from: u64, objects: &[Object]) -> Option<u64>
    ensures { Spends from (constants_room (map object_of objects.now)) result }
{
    let mut left = from;
    for object in objects {
        if !is_variable(object.storage) {
            match spend(left, array_size(object)) {
                None => return None,
                Some(rest) => left = rest,
            }
        }
    }
    Some(left)
}

/// Takes the room of the other arrays.
pub fn spend_variables(from: u64, objects: &[Object]) -> Option<u64>
    ensures { Spends from (variables_room (map object_of objects.now)) result }
{
    let mut left = from;
    for object in objects {
        if is_variable(object.storage) {
            match spend(left, array_size(object)) {
                None => return None,
                Some(rest) => left = rest,
            }
        }
    }
    Some(left)
}

/// Takes the room of the arrays that are placed.
pub fn spend_arrays(from: u64, placed: &[bool], objects: &[Object]) -> Option<u64>
    ensures { Spends from (sizes_placed placed.now 0 (map array_size (map object_of objects.now))) result }
{
    let mut left = from;
    for (number, object) in objects.iter().enumerate() {
        if is_placed(placed, number) {
            match spend(left, array_size(object)) {
                None => return None,
                Some(rest) => left = rest,
            }
        }
    }
    Some(left)
}

fn slots_of(code: &LowReg, function: usize) -> u32
    ensures { result ≡ (assignment_of code.now).slots function }
{
    match code.placings.get(function) {
        Some(placing) => placing.slots,
        None => 0,
    }
}

/// Takes the room of the frames.
pub fn spend_frames(from: u64, code: &LowReg) -> Option<u64>
    ensures { Spends from (frames_room (place_functions (assignment_of code.now) 0 (map function_of code.now.low.functions.items))) result }
{
    let mut left = from;
    for (number, _) in code.low.functions.iter().enumerate() {
        match spend(left, 4 * (49 + u64::from(slots_of(code, number)))) {
            None => return None,
            Some(rest) => left = rest,
        }
    }
    Some(left)
}

/// Takes the sizes of the functions that are placed.
pub fn spend_sizes(from: u64, placed: &[bool], sizes: &[u32]) -> Option<u64>
    ensures { Spends from (sizes_placed placed.now 0 sizes.now) result }
{
    let mut left = from;
    for (number, size) in sizes.iter().enumerate() {
        if is_placed(placed, number) {
            match spend(left, u64::from(*size)) {
                None => return None,
                Some(rest) => left = rest,
            }
        }
    }
    Some(left)
}
