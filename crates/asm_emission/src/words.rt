// The code of words, of loads and stores of words, and of moves.
ghost use Rattle.std.specs.Prelude.{◌≡◌, ◌<◌, ◌^◌, ◌++◌, ◌∷◌, [], pos, true, OnOk};
ghost use Rattle.rv_core.specs.Instructions.{instruction, addi, is_within};
ghost use Rattle.asm_items.specs.declared.item.Item.TheVariants.{Single};
ghost use Rattle.asm_program.specs.Numbers.{load_upper, constant_code, reach_code, object_code, load_word, store_word, move_code};
ghost use Rattle.asm_program.specs.Operands.{load_code, store_code};
ghost use Rattle.asm_program.specs.Functions.{singles};

use super::numbers::{
    is_beside, is_near, is_short, lower_of, reach_offset, reach_register, upper_of,
};
use asm_items::Item;
use rv_core::{Instr, Op};
use wcc_base::{Memory, sign_extend};

/// `rd = number`, but for its low part.
pub fn load_upper(rd: u8, number: u64) -> Instr
    requires rd { rd < 32 }
    requires number { number < 2 ^ 36 }
    ensures { result ≡ load_upper rd number }
{
    Instr::new(Op::Lui, rd, 0, 0, sign_extend(upper_of(number), 32))
}

/// `rd = rs + imm`.
pub fn add_number(rd: u8, rs: u8, imm: i32) -> Instr
    requires rd { rd < 32 }
    requires rs { rs < 32 }
    requires imm { is_within (2 ^ 11) imm ≡ true }
    ensures { result ≡ addi rd rs imm }
{
    Instr::new(Op::Addi, rd, rs, 0, imm)
}

/// A word comes into a register.
pub fn load_word(rd: u8, from: u8, offset: i32) -> Instr
    requires rd { rd < 32 }
    requires from { from < 32 }
    requires offset { is_within (2 ^ 11) offset ≡ true }
    ensures { result ≡ load_word rd from offset }
{
    Instr::new(Op::Lw, rd, from, 0, offset)
}

/// A register goes to a word.
pub fn store_word(register: u8, to: u8, offset: i32) -> Instr
    requires register { register < 32 }
    requires to { to < 32 }
    requires offset { is_within (2 ^ 11) offset ≡ true }
    ensures { result ≡ store_word register to offset }
{
    Instr::new(Op::Sw, 0, to, register, offset)
}

/// `rd = left + right`.
pub fn add_registers(rd: u8, left: u8, right: u8) -> Instr
    requires rd { rd < 32 }
    requires left { left < 32 }
    requires right { right < 32 }
    ensures { result ≡ instruction Op.Add rd left right (pos 0) }
{
    Instr::register(Op::Add, rd, left, right)
}

/// One instruction more.
pub fn emit(code: &mut Vec<Item>, instr: Instr) -> Result<(), Memory>
    ensures { OnOk result (code.new.items ≡ code.old.items ++ Single instr ∷ []) }
{
    code.push(Item::Single(instr))?;
    Ok(())
}

/// A word comes into a register.
pub fn emit_constant(code: &mut Vec<Item>, rd: u8, word: u32) -> Result<(), Memory>
    requires { rd < 32 }
    ensures { OnOk result (code.new.items ≡ code.old.items ++ singles (constant_code rd word)) }
{
    let number = u64::from(word);
    if is_short(word) {
        return emit(code, add_number(rd, 0, lower_of(number)));
    }
    if word % 0x1000 == 0 {
        return emit(code, load_upper(rd, number));
    }
    emit(code, load_upper(rd, number))?;
    emit(code, add_number(rd, rd, lower_of(number)))
}

/// What leads to an address, but for what an access adds.
pub fn emit_reach(code: &mut Vec<Item>, free: u8, address: u64) -> Result<(), Memory>
    requires free { free < 32 }
    requires address { address < 2 ^ 36 }
    ensures { OnOk result (code.new.items ≡ code.old.items ++ singles (reach_code free address)) }
{
    if is_near(address) {
        return Ok(());
    }
    emit(code, load_upper(free, address))
}

/// The same for an address of an array, if the second base holds this.
pub fn emit_object(code: &mut Vec<Item>, second: u32, free: u8, address: u64) -> Result<(), Memory>
    requires free { free < 32 }
    requires address { address < 2 ^ 36 }
    ensures { OnOk result (code.new.items ≡ code.old.items ++ singles (object_code second free address)) }
{
    if is_beside(second, address) {
        return Ok(());
    }
    emit_reach(code, free, address)
}

/// The word at an address comes into a register.
pub fn emit_load(code: &mut Vec<Item>, rd: u8, address: u64) -> Result<(), Memory>
    requires rd { rd < 32 }
    requires address { address < 2 ^ 36 }
    ensures { OnOk result (code.new.items ≡ code.old.items ++ singles (load_code rd address)) }
{
    emit_reach(code, rd, address)?;
    emit(
        code,
        load_word(rd, reach_register(rd, address), reach_offset(address)),
    )
}

/// A register goes to the word at an address, by way of a free one.
pub fn emit_store(code: &mut Vec<Item>, free: u8, register: u8, address: u64) -> Result<(), Memory>
    requires free { free < 32 }
    requires register { register < 32 }
    requires address { address < 2 ^ 36 }
    ensures { OnOk result (code.new.items ≡ code.old.items ++ singles (store_code free register address)) }
{
    emit_reach(code, free, address)?;
    emit(
        code,
        store_word(
            register,
            reach_register(free, address),
            reach_offset(address),
        ),
    )
}

/// A register comes into another one.
pub fn emit_move(code: &mut Vec<Item>, rd: u8, from: u8) -> Result<(), Memory>
    requires rd { rd < 32 }
    requires from { from < 32 }
    ensures { OnOk result (code.new.items ≡ code.old.items ++ singles (move_code rd from)) }
{
    if rd == from {
        return Ok(());
    }
    emit(code, add_number(rd, from, 0))
}
