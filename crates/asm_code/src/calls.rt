// The code of calls.
ghost use Rattle.std.specs.Prelude.{◌≡◌, ◌<◌, ◌++◌, [], All, map, option_map, OnOk};
ghost use Rattle.std.specs.Option.{option_to_list};
ghost use Rattle.asm_program.specs.Frames.{frame_of};
ghost use Rattle.asm_program.specs.Emission.{home_code, return_code, pass_code, late_code, value_code};
ghost use Rattle.asm_program.specs.Functions.{singles};
ghost use Rattle.asm_program.specs.Ranges.{IsRegister};
ghost use Rattle.asm_emission.specs.View.{operand_of, place_at};
ghost use Rattle.asm_code.specs.Calls.{call_items};
ghost use Rattle.asm_code.specs.Passed.{IsPassing};
ghost use Rattle.asm_code.specs.Scopes.{memory};

use super::passed::Passing;
use super::scope::Scope;
use asm_data::Frame;
use asm_emission::{emit_homes, emit_late, emit_pass, emit_returns, emit_value, place_some};
use asm_items::Item;
use low_ir::Place;
use wcc_base::Memory;

fn emit_before(
    frame: &Frame,
    items: &mut Vec<Item>,
    callee: &Frame,
    passing: &Passing,
) -> Result<(), Memory>
    requires { IsPassing passing.now }
    ensures { OnOk result (items.new.items ≡ items.old.items ++ singles (home_code frame.now passing.now.kept.items ++ (pass_code frame.now callee.now passing.now.places.items (map operand_of passing.now.arguments.items) passing.now.places.items ++ late_code frame.now callee.now passing.now.places.items (map operand_of passing.now.arguments.items) passing.now.places.items))) }
{
    let places = passing.places.as_slice();
    let arguments = passing.arguments.as_slice();
    emit_homes(frame, items, passing.kept.as_slice())?;
    emit_pass(frame, items, callee, arguments, places)?;
    emit_late(frame, items, callee, arguments, places)?;
    Ok(())
}

fn emit_behind(
    frame: &Frame,
    items: &mut Vec<Item>,
    kept: &[u8],
    into: Option<Place>,
) -> Result<(), Memory>
    requires kept { All (λ q. q < 24) kept.now }
    requires into { All IsRegister (option_to_list into) }
    ensures { OnOk result (items.new.items ≡ items.old.items ++ singles (return_code frame.now kept.now ++ value_code frame.now into)) }
{
    emit_returns(frame, items, kept)?;
    emit_value(frame, items, into)?;
    Ok(())
}

/// A call of a function that passes this, and whose value goes to a register.
pub fn emit_call(
    scope: &Scope<'_>,
    items: &mut Vec<Item>,
    function: u32,
    passing: &Passing,
    into: Option<u32>,
) -> Result<(), Memory>
    requires passing { IsPassing passing.now }
    requires into { All IsRegister (option_to_list (option_map (place_at scope.now.places.now) into)) }
    ensures { OnOk result (items.new.items ≡ items.old.items ++ call_items scope.now.frame.now (frame_of (memory scope.now) function) function passing.now.places.items (map operand_of passing.now.arguments.items) passing.now.kept.items (option_map (place_at scope.now.places.now) into) []) }
{
    let callee = scope.memory.frame(function as usize);
    emit_before(scope.frame, items, callee, passing)?;
    items.push(Item::Call {
        far: true,
        function,
    })?;
    let into = place_some(scope.places, into);
    emit_behind(scope.frame, items, passing.kept.as_slice(), into)?;
    Ok(())
}
