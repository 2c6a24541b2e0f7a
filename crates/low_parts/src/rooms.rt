// How many machine instructions code takes, and how often its blocks may start.
ghost use Rattle.std.specs.Prelude.{◌≡◌, ◌*◌, ◌+◌, ◌≤◌, ◌&&◌, if◌then◌else◌, nat_le, true, map, sum_by, IfSome};
ghost use Rattle.wcc_base.specs.Budgets.{spare_room};
ghost use Rattle.low_ir.specs.Room.{access_room, address_room, block_room, end_room, far_room, function_room, instr_room, most_starts, offset_room, times};
ghost use Rattle.low_ir.specs.View.{base_of, block_of, end_of, function_of, instr_of, loop_of};

use low_ir::{Address, Base, Block, End, Function, Instr, Loop};
use wcc_base::SPARE_ROOM;

/// The upper part of a displacement that doesn't fit into the 12 bits of an instruction.
fn far_part(displacement: u32) -> u64
    ensures value { result ≡ far_room displacement }
    ensures few { result ≤ 2 }
{
    if displacement < 0x800 || displacement >= 0xffff_f800 {
        0
    } else {
        2
    }
}

/// What leads to an index.
fn offset_part(offset: Option<u32>) -> u64
    ensures value { result ≡ offset_room offset }
    ensures few { result ≤ 3 }
{
    match offset {
        None => 0,
        Some(_) => 3,
    }
}

/// What leads to an address whose lowest 12 bits are still to be added.
pub fn address_part(address: Address) -> u64
    ensures value { result ≡ address_room (base_of address.base) address.offset address.displacement }
    ensures few { result ≤ 7 }
{
    match address.base {
        Base::Object(_) => 1 + offset_part(address.offset),
        Base::Pointer { .. } => 2 + offset_part(address.offset) + far_part(address.displacement),
    }
}

/// The same for a load or a store, of which one without an offset counts more.
pub fn access_part(address: Address) -> u64
    ensures value { result ≡ access_room (base_of address.base) address.offset address.displacement }
    ensures few { result ≤ 7 }
{
    match address.base {
        Base::Object(_) => match address.offset {
            None => 5,
            Some(_) => 4,
        },
        Base::Pointer { .. } => address_part(address),
    }
}

/// Ten for each argument.
fn call_part(arguments: usize) -> Option<u64>
    ensures { IfSome result (λ n. n ≡ 4 + 10 * arguments) }
{
    match (arguments as u64).checked_mul(10) {
        None => None,
        Some(tens) => tens.checked_add(4),
    }
}

/// What an instruction takes.
pub fn instr_part(instr: &Instr) -> Option<u64>
    ensures { IfSome result (λ n. n ≡ instr_room (instr_of instr.now)) }
{
    match instr {
        Instr::Set { .. } => Some(4),
        Instr::Operate { .. } => Some(7),
        Instr::Point { address: at, .. } => Some(address_part(*at) + 3),
        Instr::Load { address: at, .. } => Some(access_part(*at) + 3),
        Instr::Store { address: at, .. } => Some(access_part(*at) + 3),
        Instr::Put { .. } => Some(4),
        Instr::Get { .. } => Some(4),
        Instr::Call { arguments, .. } => call_part(arguments.len()),
    }
}

/// What the end of a block takes.
pub fn end_part(end: End) -> u64
    ensures { result ≡ end_room (end_of end) }
{
    match end {
        End::Jump { .. } => 2,
        End::Branch { .. } => 9,
        End::Return { .. } => 4,
    }
}

/// What code takes, beside so much.
fn code_part(code: &[Instr], beside: u64) -> Option<u64>
    ensures { IfSome result (λ n. n ≡ beside + sum_by instr_room (map instr_of code.now)) }
{
    let mut total = beside;
    for instr in code {
        match instr_part(instr) {
            None => return None,
            Some(part) => match total.checked_add(part) {
                None => return None,
                Some(more) => total = more,
            },
        }
    }
    Some(total)
}

/// What a block takes.
pub fn block_part(block: &Block) -> Option<u64>
    ensures { IfSome result (λ n. n ≡ block_room (block_of block.now)) }
{
    code_part(&block.code, end_part(block.end))
}

/// How often a block may start for each entry of a loop.
fn starts(each: Loop, block: u32) -> u64
    ensures { result ≡ (if nat_le (loop_of each).header block && nat_le block (loop_of each).latch then most_starts (loop_of each) else 1) }
{
    if each.header <= block && block <= each.latch {
        u64::from(each.max.max(1))
    } else {
        1
    }
}

/// How often a block may start for each call of its function.
pub fn times(loops: &[Loop], block: u32) -> Option<u64>
    ensures { IfSome result (λ n. n ≡ times (map loop_of loops.now) block) }
{
    let mut product = 1u64;
    let mut at = loops.len();
    while at > 0 {
        at -= 1;
        match starts(loops[at], block).checked_mul(product) {
            None => return None,
            Some(more) => product = more,
        }
    }
    Some(product)
}

/// What a function takes, beside so much.
fn function_part(function: &Function, beside: u64) -> Option<u64>
    ensures { IfSome result (λ n. n ≡ beside + function_room (function_of function.now)) }
{
    let Some(with_frame) = beside.checked_add(64) else {
        return None;
    };
    let mut total = with_frame;
    for block in &function.blocks {
        match block_part(block) {
            None => return None,
            Some(part) => match total.checked_add(part) {
                None => return None,
                Some(more) => total = more,
            },
        }
    }
    Some(total)
}

/// The machine instructions that functions take.
fn room(functions: &[Function]) -> Option<u64>
    ensures { IfSome result (λ n. n ≡ sum_by function_room (map function_of functions.now)) }
{
    let mut total = 0u64;
    for function in functions {
        match function_part(function, total) {
            None => return None,
            Some(more) => total = more,
        }
    }
    Some(total)
}

/// Whether functions take no more than passes over the low form may make.
pub fn has_room(functions: &[Function]) -> bool
    ensures { result ≡ true → sum_by function_room (map function_of functions.now) ≤ spare_room }
{
    match room(functions) {
        None => false,
        Some(most) => most <= SPARE_ROOM,
    }
}
