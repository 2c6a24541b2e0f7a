// How the instructions of an image go on.
ghost use Rattle.std.specs.Prelude.{◌≡◌, ◌≤◌, ◌-◌, Option, Some, None, IfSome, nat_le, if◌then◌else◌};
ghost use Rattle.std.specs.List.Sorted.{IsSorted};
ghost use Rattle.std.specs.Ordering.{nat_cmp};
ghost use Rattle.rv_core.specs.Arithmetic.{displaced};
ghost use Rattle.rv_core.specs.Code.{instruction_in};
ghost use Rattle.rv_core.specs.Machine.{behind};
ghost use Rattle.rv_core.specs.Runs.{sets_upper};
ghost use Rattle.code_flow_system.specs.Claims.{is_listed};
ghost use Rattle.code_flow_system.specs.Moves.{jump_way, register_way, way_of, code_by, fetch_before};
ghost use Rattle.code_flow.specs.Walks.{way_at};

use crate::sorted::is_among;
use code_flow_system::Way;
use rv_core::{Effect, Image, Instr};

/// An address plus an immediate.
fn displaced(at: u32, imm: i32) -> u32
    ensures { result ≡ displaced at imm }
{
    at.wrapping_add(imm.cast_unsigned())
}

/// The address behind an instruction.
pub fn behind(at: u32) -> u32
    ensures { result ≡ behind at }
{
    at.wrapping_add(4)
}

/// A jump to a target that links to a register.
fn jump_way(link: u8, to: u32) -> Way
    ensures { result ≡ jump_way link to }
{
    match link {
        0 => Way::Jumps(to),
        1 => Way::Calls(to),
        _ => Way::Strays,
    }
}

/// Whether an instruction puts an address into the register of a JALR behind it.
pub fn sets_upper(before: &Instr, register: u8) -> bool
    ensures { result ≡ sets_upper (Some before.now) register }
{
    match before.op().row().effect {
        Effect::AddUpper => before.rd() != 0 && before.rd() == register,
        _ => false,
    }
}

/// The instruction before an address.
pub fn instruction_before(image: &Image, at: u32) -> Option<Instr>
    ensures { result ≡ (if nat_le 4 at then instruction_in image.now (at - 4) else None) }
{
    if at < 4 {
        None
    } else {
        image.instruction(at - 4)
    }
}

/// How a JALR goes on.
fn register_way(before: Option<Instr>, at: u32, instr: &Instr) -> Way
    requires { IfSome before (λ u. 4 ≤ at) }
    ensures { result ≡ register_way (sets_upper before instr.now.rs1) before at instr.now }
{
    if let Some(upper) = before {
        if sets_upper(&upper, instr.rs1()) {
            let base = displaced(at - 4, upper.imm());
            return jump_way(instr.rd(), displaced(base, instr.imm()) / 2 * 2);
        }
    }
    if instr.rd() == 0 && instr.rs1() == 1 && instr.imm() == 0 {
        Way::Ends
    } else {
        Way::Strays
    }
}

/// How the instruction at an address goes on, where these are the exits in order.
pub fn way(image: &Image, exits: &[u32], at: u32, instr: &Instr) -> Way
    requires { IsSorted nat_cmp exits.now }
    ensures { result ≡ way_of (is_listed exits.now at) (fetch_before (code_by image.now exits.now) at) at instr.now }
{
    match instr.op().row().effect {
        Effect::Link => jump_way(instr.rd(), displaced(at, instr.imm())),
        Effect::LinkRegister => register_way(instruction_before(image, at), at, instr),
        Effect::BranchIf(_) => Way::Branches(displaced(at, instr.imm())),
        Effect::CallEnvironment if is_among(exits, at) => Way::Ends,
        _ => Way::Next,
    }
}

/// How an address goes on; without an instruction it strays.
pub fn way_at(image: &Image, exits: &[u32], at: u32) -> Way
    requires { IsSorted nat_cmp exits.now }
    ensures { result ≡ way_at (code_by image.now exits.now) at }
{
    match image.instruction(at) {
        Some(instr) => way(image, exits, at, &instr),
        None => Way::Strays,
    }
}
