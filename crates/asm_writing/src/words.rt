// The words of items.
ghost use Rattle.std.specs.Prelude.{◌≡◌, ◌+◌, ◌<◌, ◌≤◌, ◌^◌, ◌++◌, ◌∷◌, [], map, true, IsTrue, OnOk};
ghost use Rattle.rv_core.specs.Words.{word_of};
ghost use Rattle.asm_items.specs.Items.{branch_op, opposite, near_jump, far_jump, jump_words, branch_words, form_size, size, in_rows};
ghost use Rattle.asm_writing.specs.Targets.{words_to};

use super::offsets::{lower_to, offset_to, upper_to};
use asm_items::{Form, Item};
use rv_core::{Condition, Instr, Op, encode};
use wcc_base::Memory;

fn branch_of(condition: Condition) -> Op
    ensures { result ≡ branch_op condition }
{
    match condition {
        Condition::Equal => Op::Beq,
        Condition::NotEqual => Op::Bne,
        Condition::Less => Op::Blt,
        Condition::AtLeast => Op::Bge,
        Condition::LessUnsigned => Op::Bltu,
        Condition::AtLeastUnsigned => Op::Bgeu,
    }
}

/// The condition that holds of two numbers where this one does not.
pub fn opposite_of(condition: Condition) -> Condition
    ensures { result ≡ opposite condition }
{
    match condition {
        Condition::Equal => Condition::NotEqual,
        Condition::NotEqual => Condition::Equal,
        Condition::Less => Condition::AtLeast,
        Condition::AtLeast => Condition::Less,
        Condition::LessUnsigned => Condition::AtLeastUnsigned,
        Condition::AtLeastUnsigned => Condition::LessUnsigned,
    }
}

/// An instruction behind other words.
fn put(words: &mut Vec<u32>, instr: Instr) -> Result<(), Memory>
    ensures { OnOk result (words.new.items ≡ words.old.items ++ map word_of (instr ∷ [])) }
{
    words.push(encode(&instr))?;
    Ok(())
}

fn put_near(words: &mut Vec<u32>, link: u8, at: u32, to: u32) -> Result<(), Memory>
    requires at { at < 2 ^ 30 }
    requires to { to < 2 ^ 30 }
    requires rows { IsTrue (in_rows (near_jump link at to)) }
    ensures { OnOk result (words.new.items ≡ words.old.items ++ map word_of (near_jump link at to)) }
{
    put(words, Instr::new(Op::Jal, link, 0, 0, offset_to(at, to)))
}

fn put_far(words: &mut Vec<u32>, link: u8, at: u32, to: u32) -> Result<(), Memory>
    requires at { at < 2 ^ 30 }
    requires to { to < 2 ^ 30 }
    requires rows { IsTrue (in_rows (far_jump link at to)) }
    ensures { OnOk result (words.new.items ≡ words.old.items ++ map word_of (far_jump link at to)) }
{
    put(words, Instr::new(Op::Auipc, 5, 0, 0, upper_to(at, to)))?;
    put(words, Instr::new(Op::Jalr, link, 5, 0, lower_to(at, to)))
}

fn put_jump(words: &mut Vec<u32>, far: bool, link: u8, at: u32, to: u32) -> Result<(), Memory>
    requires at { at < 2 ^ 30 }
    requires to { to < 2 ^ 30 }
    requires rows { IsTrue (in_rows (jump_words far link at to)) }
    ensures { OnOk result (words.new.items ≡ words.old.items ++ map word_of (jump_words far link at to)) }
{
    if far {
        put_far(words, link, at, to)
    } else {
        put_near(words, link, at, to)
    }
}

/// A branch by an offset, and a jump behind it.
fn put_over(words: &mut Vec<u32>, branch: Instr, far: bool, at: u32, to: u32) -> Result<(), Memory>
    requires at { at + 4 < 2 ^ 30 }
    requires to { to < 2 ^ 30 }
    requires rows { IsTrue (in_rows (jump_words far 0 (at + 4) to)) }
    ensures { OnOk result (words.new.items ≡ words.old.items ++ map word_of (branch ∷ jump_words far 0 (at + 4) to)) }
{
    put(words, branch)?;
    put_jump(words, far, 0, at + 4, to)
}

fn put_branch(
    words: &mut Vec<u32>,
    form: Form,
    condition: Condition,
    pair: (u8, u8),
    at: u32,
    to: u32,
) -> Result<(), Memory>
    requires room { at + form_size form ≤ 2 ^ 30 }
    requires to { to < 2 ^ 30 }
    requires rows { IsTrue (in_rows (branch_words form condition pair.0 pair.1 at to)) }
    ensures { OnOk result (words.new.items ≡ words.old.items ++ map word_of (branch_words form condition pair.0 pair.1 at to)) }
{
    let (left, right) = pair;
    match form {
        Form::Short => put(
            words,
            Instr::new(branch_of(condition), 0, left, right, offset_to(at, to)),
        ),
        Form::Inverted => {
            let branch = Instr::new(branch_of(opposite_of(condition)), 0, left, right, 8);
            put_over(words, branch, false, at, to)
        }
        Form::Far => {
            let branch = Instr::new(branch_of(opposite_of(condition)), 0, left, right, 12);
            put_over(words, branch, true, at, to)
        }
    }
}

/// The words of an item that stands at an address and leads to another, behind other words.
pub fn put_item(words: &mut Vec<u32>, item: &Item, at: u32, to: u32) -> Result<(), Memory>
    requires room { at + size item.now ≤ 2 ^ 30 }
    requires to { to < 2 ^ 30 }
    requires rows { IsTrue (in_rows (words_to at to item.now)) }
    ensures { OnOk result (words.new.items ≡ words.old.items ++ map word_of (words_to at to item.now)) }
{
    match item {
        Item::Single(instr) => put(words, *instr),
        Item::Jump { far, .. } => put_jump(words, *far, 0, at, to),
        Item::Call { far, .. } => put_jump(words, *far, 1, at, to),
        Item::Branch {
            form,
            condition,
            left,
            right,
            ..
        } => put_branch(words, *form, *condition, (*left, *right), at, to),
        Item::Return => put(words, Instr::new(Op::Jalr, 0, 1, 0, 0)),
        Item::Exit => put(words, Instr::ecall()),
    }
}
