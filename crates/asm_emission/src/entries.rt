// The code with which a function begins and returns.
ghost use Rattle.std.specs.Prelude.{◌≡◌, ◌+◌, ◌*◌, ◌<◌, ◌≤◌, ◌^◌, ◌++◌, length, true, OnOk};
ghost use Rattle.rv_core.specs.Instructions.{is_within};
ghost use Rattle.asm_program.specs.Numbers.{is_near};
ghost use Rattle.asm_program.specs.Functions.{singles, is_frame_near, frame_code, frame_register, frame_offset, link_store, link_load, saves, loads, saves_nothing, entry_code, exit_code, leaves_at_once};

use super::numbers::{BASE, BASE_ADDRESS, FIRST_FREE, LINK, is_near, lower_of, machine_register};
use super::words::{add_number, emit, load_upper, load_word, store_word};
use asm_data::Frame;
use asm_items::Item;
use wcc_base::Memory;

/// Whether one instruction reaches each word that the function saves.
fn is_frame_near(frame: &Frame) -> bool
    ensures { result ≡ is_frame_near frame.now }
{
    let first = u64::from(frame.at());
    let last = first + 4 * frame.saved().len() as u64;
    is_near(first) && is_near(last)
}

fn frame_register(near: bool) -> u8
    ensures value { result ≡ frame_register near }
    ensures small { result < 32 }
{
    if near { BASE } else { FIRST_FREE }
}

/// What is added to that register for a word that the function saves.
fn frame_offset(near: bool, frame: &Frame, address: u64) -> i32
    requires first { frame.now.at ≤ address }
    requires last { address ≤ frame.now.at + 96 }
    requires near { near ≡ true → is_near address ≡ true }
    ensures value { result ≡ frame_offset near frame.now address }
    ensures short { is_within (2 ^ 11) result ≡ true }
{
    if near {
        return (address as i64 - i64::from(BASE_ADDRESS)) as i32;
    }
    (address - u64::from(frame.at())) as i32
}

fn emit_frame(frame: &Frame, code: &mut Vec<Item>, near: bool) -> Result<(), Memory>
    ensures { OnOk result (code.new.items ≡ code.old.items ++ singles (frame_code near frame.now)) }
{
    if near {
        return Ok(());
    }
    let at = u64::from(frame.at());
    emit(code, load_upper(FIRST_FREE, at))?;
    emit(code, add_number(FIRST_FREE, FIRST_FREE, lower_of(at)))
}

fn emit_link_store(
    frame: &Frame,
    code: &mut Vec<Item>,
    near: bool,
    leaf: bool,
) -> Result<(), Memory>
    requires { near ≡ is_frame_near frame.now }
    ensures { OnOk result (code.new.items ≡ code.old.items ++ singles (link_store near frame.now leaf)) }
{
    if leaf {
        return Ok(());
    }
    let offset = frame_offset(near, frame, u64::from(frame.at()));
    emit(code, store_word(LINK, frame_register(near), offset))
}

fn emit_link_load(frame: &Frame, code: &mut Vec<Item>, near: bool, leaf: bool) -> Result<(), Memory>
    requires { near ≡ is_frame_near frame.now }
    ensures { OnOk result (code.new.items ≡ code.old.items ++ singles (link_load near frame.now leaf)) }
{
    if leaf {
        return Ok(());
    }
    let offset = frame_offset(near, frame, u64::from(frame.at()));
    emit(code, load_word(LINK, frame_register(near), offset))
}

fn emit_saves(frame: &Frame, code: &mut Vec<Item>, near: bool) -> Result<(), Memory>
    requires { near ≡ is_frame_near frame.now }
    ensures { OnOk result (code.new.items ≡ code.old.items ++ singles (saves near frame.now frame.now.saved)) }
{
    let registers = frame.saved();
    for register in registers {
        let offset = frame_offset(near, frame, frame.saved_at(*register));
        emit(
            code,
            store_word(machine_register(*register), frame_register(near), offset),
        )?;
    }
    Ok(())
}

fn emit_loads(frame: &Frame, code: &mut Vec<Item>, near: bool) -> Result<(), Memory>
    requires { near ≡ is_frame_near frame.now }
    ensures { OnOk result (code.new.items ≡ code.old.items ++ singles (loads near frame.now frame.now.saved)) }
{
    let registers = frame.saved();
    for register in registers {
        let offset = frame_offset(near, frame, frame.saved_at(*register));
        emit(
            code,
            load_word(machine_register(*register), frame_register(near), offset),
        )?;
    }
    Ok(())
}

fn saves_nothing(frame: &Frame, leaf: bool) -> bool
    ensures { result ≡ saves_nothing leaf frame.now }
{
    leaf && frame.saved().len() == 0
}

/// The code with which a function begins; a leaf is one that calls no other.
pub fn emit_entry(frame: &Frame, code: &mut Vec<Item>, leaf: bool) -> Result<(), Memory>
    ensures { OnOk result (code.new.items ≡ code.old.items ++ singles (entry_code leaf frame.now)) }
{
    if saves_nothing(frame, leaf) {
        return Ok(());
    }
    let near = is_frame_near(frame);
    emit_frame(frame, code, near)?;
    emit_link_store(frame, code, near, leaf)?;
    emit_saves(frame, code, near)
}

/// The code before a return.
pub fn emit_exit(frame: &Frame, code: &mut Vec<Item>, leaf: bool) -> Result<(), Memory>
    ensures { OnOk result (code.new.items ≡ code.old.items ++ singles (exit_code leaf frame.now)) }
{
    if saves_nothing(frame, leaf) {
        return Ok(());
    }
    let near = is_frame_near(frame);
    emit_frame(frame, code, near)?;
    emit_link_load(frame, code, near, leaf)?;
    emit_loads(frame, code, near)
}

fn frame_length(frame: &Frame, near: bool) -> usize
    ensures value { result ≡ length (frame_code near frame.now) }
    ensures most { result ≤ 2 }
{
    if near {
        return 0;
    }
    2
}

fn link_length(frame: &Frame, near: bool, leaf: bool) -> usize
    ensures value { result ≡ length (link_load near frame.now leaf) }
    ensures most { result ≤ 1 }
{
    if leaf {
        return 0;
    }
    1
}

fn exit_length(frame: &Frame, leaf: bool) -> usize
    ensures { result ≡ length (exit_code leaf frame.now) }
{
    if saves_nothing(frame, leaf) {
        return 0;
    }
    let near = is_frame_near(frame);
    frame_length(frame, near) + link_length(frame, near, leaf) + frame.saved().len()
}

/// Whether each return leaves by itself.
pub fn leaves_at_once(frame: &Frame, leaf: bool) -> bool
    ensures { result ≡ leaves_at_once leaf frame.now }
{
    exit_length(frame, leaf) < 2
}
