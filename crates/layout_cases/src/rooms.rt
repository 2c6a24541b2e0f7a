// Whether a program is small.
ghost use Rattle.std.specs.Prelude.{◌≡◌, ◌*◌, ◌<◌, ◌≤◌, ◌^◌, IsTrue, IfSome, map};
ghost use Rattle.low_ir.specs.Kinds.{kind_bytes};
ghost use Rattle.low_ir.specs.View.{block_of, function_of, object_of};
ghost use Rattle.low_ir.specs.Placings.{assignment_of};
ghost use Rattle.asm_items.specs.Placings.{blocks_size};
ghost use Rattle.asm_forms.specs.Regions.{functions_size};
ghost use Rattle.asm_forms.specs.Shorter.{blocks_longest, functions_longest};
ghost use Rattle.image_saving.specs.Walks.{HaveSpots, spots_in};
ghost use Rattle.layout_cases.specs.Rooms.{IsSmall, rooms as rooms_of, words_from};

use asm_items::Item;
use low_ir::object::{Kind, Object};
use low_ir::{Block, Function, LowReg};
use wcc_base::Items;

/// What is counted here at most.
const MOST: u32 = 0x4000;

/// How many places code has.
pub fn spots(blocks: &[Block]) -> Option<u32>
    ensures value { IfSome result (λ n. n ≡ spots_in (map block_of blocks.now)) }
{
    let mut sum = 0;
    for block in blocks {
        let code = block.code.len();
        if code >= 0x4000 || sum >= MOST {
            return None;
        }
        sum += code as u32 + 1;
    }
    Some(sum)
}

fn have_spots(functions: &[Function]) -> bool
    ensures { IsTrue result → HaveSpots (map function_of functions.now) }
{
    for function in functions {
        if let None = spots(&function.blocks) {
            return false;
        }
    }
    true
}

/// The bytes of so many elements.
fn bytes(kind: Kind, length: u32) -> u32
    requires { length < 2 ^ 14 }
    ensures value { result ≡ kind_bytes kind * length }
    ensures few { result ≤ 2 ^ 16 }
{
    match kind {
        Kind::Unsigned8 => length,
        Kind::Signed8 => length,
        Kind::Unsigned16 => 2 * length,
        Kind::Signed16 => 2 * length,
        Kind::Word => 4 * length,
    }
}

/// What arrays take together.
pub fn rooms(objects: &[Object]) -> Option<u32>
    ensures { IfSome result (λ n. n ≡ rooms_of (map object_of objects.now)) }
{
    let mut sum = 0;
    for object in objects {
        if object.length >= MOST || sum >= MOST {
            return None;
        }
        sum += (bytes(object.kind, object.length) + 3) / 4 * 4;
    }
    Some(sum)
}

fn slots(code: &LowReg, function: usize) -> u32
    ensures { result ≡ (assignment_of code.now).slots function }
{
    match code.placings.get(function) {
        Some(placing) => placing.slots,
        None => 0,
    }
}

/// What the frames of functions take at most, in words.
fn frames(code: &LowReg) -> Option<u32>
    ensures { IfSome result (λ n. n ≡ words_from (assignment_of code.now) 0 (map function_of code.now.low.functions.items)) }
{
    let mut sum = 0;
    for (number, _) in code.low.functions.iter().enumerate() {
        let slots = slots(code, number);
        if slots >= MOST || sum >= MOST {
            return None;
        }
        sum += 49 + slots;
    }
    Some(sum)
}

/// Whether the frames and arrays of a program have room.
pub fn is_small(code: &LowReg) -> bool
    ensures { IsTrue result → IsSmall code.now }
{
    if !have_spots(&code.low.functions) {
        return false;
    }
    match frames(code) {
        None => false,
        Some(words) => match rooms(&code.low.objects) {
            None => false,
            Some(bytes) => words <= MOST && bytes <= MOST,
        },
    }
}

fn blocks_few(blocks: &[Items<Item>]) -> Option<u32>
    ensures { IfSome result (λ n. blocks_size (blocks_longest blocks.now) ≤ n) }
{
    let mut sum = 0;
    for block in blocks {
        let items = block.as_slice().len();
        if items >= 0x4000 || sum >= MOST {
            return None;
        }
        sum += 12 * items as u32;
    }
    Some(sum)
}

/// Whether the code of functions has room.
pub fn are_few(functions: &[Items<Items<Item>>]) -> bool
    ensures { IsTrue result → functions_size (functions_longest functions.now) < 2 ^ 20 }
{
    let mut sum = 0;
    for blocks in functions {
        match blocks_few(blocks.as_slice()) {
            None => return false,
            Some(bytes) => {
                if bytes >= 0x4_0000 || sum >= 0x4_0000 {
                    return false;
                }
                sum += bytes;
            }
        }
    }
    true
}
