// The bounds of code and data.
ghost use Rattle.std.specs.Prelude.{◌≡◌, ◌+◌, ◌^◌, ◌<◌, ◌≤◌, true, false, length, slice_index_or};
ghost use Rattle.wcc_base.specs.Budgets.{most_instructions};
ghost use Rattle.low_ir.specs.Placings.{placed_of};
ghost use Rattle.low_ir.specs.Room.{room};
ghost use Rattle.image_definition.specs.Sizes.{
  HasRoom,
  HasSizes,
  array_sizes,
  constants_room,
  frames_room,
  function_sizes,
  sizes_placed,
  variables_room,
};

use super::code::spend_functions;
use super::data::{
    is_placed, spend_arrays, spend_constants, spend_frames, spend_sizes, spend_variables,
};
use image_memory::Placement;
use low_ir::LowReg;
use wcc_base::MOST_INSTRUCTIONS;

fn has_code(code: &LowReg) -> bool
    ensures whole { result ≡ true → room (placed_of code.now) ≤ most_instructions }
    ensures exact { result ≡ false → most_instructions < room (placed_of code.now) }
{
    match spend_functions(MOST_INSTRUCTIONS, &code.low.functions) {
        None => false,
        Some(_) => true,
    }
}

fn has_constants(code: &LowReg) -> bool
    ensures whole { result ≡ true → constants_room (placed_of code.now).objects ≤ 2 ^ 18 }
    ensures exact { result ≡ false → 2 ^ 18 < constants_room (placed_of code.now).objects }
{
    match spend_constants(0x4_0000, &code.low.objects) {
        None => false,
        Some(_) => true,
    }
}

fn has_variables(code: &LowReg) -> bool
    ensures whole { result ≡ true → frames_room (placed_of code.now).functions + variables_room (placed_of code.now).objects ≤ 2 ^ 21 }
    ensures exact { result ≡ false → 2 ^ 21 < frames_room (placed_of code.now).functions + variables_room (placed_of code.now).objects }
{
    match spend_frames(0x20_0000, code) {
        None => false,
        Some(left) => match spend_variables(left, &code.low.objects) {
            None => false,
            Some(_) => true,
        },
    }
}

fn has_placed(code: &LowReg, sizes: &[u32], placement: &Placement) -> bool
    ensures whole { result ≡ true → sizes_placed placement.now.objects 0 (array_sizes (placed_of code.now)) + sizes_placed placement.now.functions 0 sizes.now ≤ 2 ^ 16 }
    ensures exact { result ≡ false → 2 ^ 16 < sizes_placed placement.now.objects 0 (array_sizes (placed_of code.now)) + sizes_placed placement.now.functions 0 sizes.now }
{
    match spend_arrays(0x1_0000, &placement.objects, &code.low.objects) {
        None => false,
        Some(left) => match spend_sizes(left, &placement.functions, sizes) {
            None => false,
            Some(_) => true,
        },
    }
}

/// Whether the start code, which is the last function, is named.
#[tactic(auto, using(crate::proofs::RoomLemmas::start_is))]
fn is_start_placed(code: &LowReg, placement: &Placement) -> bool
    ensures { result ≡ slice_index_or placement.now.functions (length (placed_of code.now).functions) false }
{
    is_placed(&placement.functions, code.low.functions.len())
}

/// Whether the code and the data of a program have room, whatever is placed.
#[tactic(auto, using(crate::proofs::RoomLemmas::has_parts, crate::proofs::RoomLemmas::no_code, crate::proofs::RoomLemmas::no_constants, crate::proofs::RoomLemmas::no_variables))]
pub fn has_room(code: &LowReg) -> bool
    ensures whole { result ≡ true → HasRoom (placed_of code.now) }
    ensures exact { HasRoom (placed_of code.now) → result ≡ true }
{
    if !has_code(code) {
        return false;
    }
    if !has_constants(code) {
        return false;
    }
    if !has_variables(code) {
        return false;
    }
    true
}

/// Whether a program has room, with the functions and arrays in the scratchpad that the placement names. The sizes are
/// those of the functions.
#[tactic(auto, using(crate::proofs::RoomLemmas::has_all, crate::proofs::RoomLemmas::no_room, crate::proofs::RoomLemmas::no_placed))]
pub fn has_sizes(code: &LowReg, sizes: &[u32], placement: &Placement) -> bool
    requires { sizes.now ≡ function_sizes (placed_of code.now) }
    ensures whole { result ≡ true → HasSizes placement.now (placed_of code.now) }
    ensures exact { HasSizes placement.now (placed_of code.now) → result ≡ true }
{
    if !has_room(code) {
        return false;
    }
    if !has_placed(code, sizes, placement) {
        return false;
    }
    !is_start_placed(code, placement)
}
