// Programs whose functions have words in registers.
ghost use Rattle.std.specs.Prelude.{◌≡◌, ◌+◌, ◌<◌, ◌++◌, ◌^◌, IfOk, length, map};
ghost use Rattle.low_ir.specs.View.{block_of, claim_of, end_of, function_of, instr_of, operand_of};
ghost use Rattle.low_ir.specs.Room as room;
ghost use Rattle.pass_constant_hoisting.specs.Holding.{fills, has_in_itself, held, held_block, held_end, held_functions, held_instr, held_right, holding, opened, register_of, words_at, words_in};

use low_ir::{Block, End, Function, Instr, Operand};
use rv_core::Alu;
use std::alloc::Global;
use wcc_base::Memory;

/// The register of a word, among registers from a first one on.
fn register_of(first: u32, words: &[u32], word: u32) -> Option<u32>
    requires { first + length words.now < 2 ^ 32 }
    ensures { result ≡ register_of first words.now word }
{
    let mut register = first;
    for other in words {
        if *other == word {
            return Some(register);
        }
        register += 1;
    }
    None
}

pub fn is_near(word: u32) -> bool
    ensures { result ≡ room.is_near word }
{
    word < 0x800 || word >= 0xffff_f800
}

/// Whether an instruction has a word in itself, as the right operand of an operator.
pub fn has_in_itself(operator: Alu, word: u32) -> bool
    ensures { result ≡ has_in_itself operator word }
{
    match operator {
        Alu::Sum => is_near(word),
        Alu::IsLess => is_near(word),
        Alu::IsLessUnsigned => is_near(word),
        Alu::BitXor => is_near(word),
        Alu::BitOr => is_near(word),
        Alu::BitAnd => is_near(word),
        Alu::ShiftLeft => true,
        Alu::ShiftRight => true,
        Alu::ShiftRightSigned => true,
        Alu::Difference => false,
        Alu::Product => false,
        Alu::HighProduct => false,
        Alu::HighProductMixed => false,
        Alu::HighProductUnsigned => false,
        Alu::Quotient => false,
        Alu::QuotientUnsigned => false,
        Alu::Remainder => false,
        Alu::RemainderUnsigned => false,
    }
}

fn held(first: u32, words: &[u32], operand: Operand) -> Operand
    requires { first + length words.now < 2 ^ 32 }
    ensures { operand_of result ≡ held first words.now (operand_of operand) }
{
    match operand {
        Operand::Register(_) => operand,
        Operand::Constant(word) => match register_of(first, words, word) {
            None => operand,
            Some(register) => Operand::Register(register),
        },
    }
}

fn held_right(first: u32, words: &[u32], operator: Alu, operand: Operand) -> Operand
    requires { first + length words.now < 2 ^ 32 }
    ensures { operand_of result ≡ held_right first words.now operator (operand_of operand) }
{
    match operand {
        Operand::Register(_) => operand,
        Operand::Constant(word) => {
            if has_in_itself(operator, word) {
                return operand;
            }
            held(first, words, operand)
        }
    }
}

fn held_instr(alloc: Global, first: u32, words: &[u32], instr: &Instr) -> Result<Instr, Memory>
    requires { first + length words.now < 2 ^ 32 }
    ensures { IfOk result (λ i. instr_of i ≡ held_instr first words.now (instr_of instr.now)) }
{
    match instr {
        Instr::Set { into, value } => Ok(Instr::Set {
            into: *into,
            value: *value,
        }),
        Instr::Operate {
            operator,
            into,
            left,
            right,
        } => Ok(Instr::Operate {
            operator: *operator,
            into: *into,
            left: held(first, words, *left),
            right: held_right(first, words, *operator, *right),
        }),
        Instr::Point { into, address } => Ok(Instr::Point {
            into: *into,
            address: *address,
        }),
        Instr::Load {
            kind,
            into,
            address,
        } => Ok(Instr::Load {
            kind: *kind,
            into: *into,
            address: *address,
        }),
        Instr::Store {
            kind,
            address,
            value,
        } => Ok(Instr::Store {
            kind: *kind,
            address: *address,
            value: held(first, words, *value),
        }),
        Instr::Put { value } => Ok(Instr::Put { value: *value }),
        Instr::Get { into } => Ok(Instr::Get { into: *into }),
        Instr::Call {
            function,
            arguments,
            into,
        } => Ok(Instr::Call {
            function: *function,
            arguments: Vec::from_slice(alloc, arguments)?,
            into: *into,
        }),
    }
}

fn held_end(first: u32, words: &[u32], end: End) -> End
    requires { first + length words.now < 2 ^ 32 }
    ensures { end_of result ≡ held_end first words.now (end_of end) }
{
    match end {
        End::Jump { block } => End::Jump { block },
        End::Branch {
            condition,
            left,
            right,
            taken,
            other,
        } => End::Branch {
            condition,
            left: held(first, words, left),
            right: held(first, words, right),
            taken,
            other,
        },
        End::Return { value } => End::Return { value },
    }
}

/// Instructions behind others.
fn add_code(
    alloc: Global,
    first: u32,
    words: &[u32],
    code: &[Instr],
    all: &mut Vec<Instr>,
) -> Result<(), Memory>
    requires { first + length words.now < 2 ^ 32 }
    ensures { IfOk result (λ _. map instr_of all.new.items ≡ map instr_of all.old.items ++ map (held_instr first words.now) (map instr_of code.now)) }
{
    for instr in code {
        all.push(held_instr(alloc, first, words, instr)?)?;
    }
    Ok(())
}

/// Puts words into registers from a first one on.
fn fills(alloc: Global, first: u32, words: &[u32]) -> Result<Vec<Instr>, Memory>
    requires { first + length words.now < 2 ^ 32 }
    ensures { IfOk result (λ c. map instr_of c.items ≡ fills first words.now) }
{
    let mut code = Vec::new(alloc);
    let mut register = first;
    for word in words {
        code.push(Instr::Set {
            into: register,
            value: Operand::Constant(*word),
        })?;
        register += 1;
    }
    Ok(code)
}

/// Blocks behind others.
fn add_blocks(
    alloc: Global,
    first: u32,
    words: &[u32],
    blocks: &[Block],
    all: &mut Vec<Block>,
) -> Result<(), Memory>
    requires { first + length words.now < 2 ^ 32 }
    ensures { IfOk result (λ _. map block_of all.new.items ≡ map block_of all.old.items ++ map (held_block first words.now) (map block_of blocks.now)) }
{
    for block in blocks {
        let mut code = Vec::new(alloc);
        add_code(alloc, first, words, &block.code, &mut code)?;
        all.push(Block {
            mark: block.mark,
            code,
            end: held_end(first, words, block.end),
        })?;
    }
    Ok(())
}

/// The first block, which fills the registers.
fn first_block(alloc: Global, first: u32, words: &[u32], block: &Block) -> Result<Block, Memory>
    requires { first + length words.now < 2 ^ 32 }
    ensures { IfOk result (λ b. block_of b ≡ record { mark = block.now.mark; code = fills first words.now ++ map (held_instr first words.now) (map instr_of block.now.code.items); end = held_end first words.now (end_of block.now.end) }) }
{
    let mut code = fills(alloc, first, words)?;
    add_code(alloc, first, words, &block.code, &mut code)?;
    Ok(Block {
        mark: block.mark,
        code,
        end: held_end(first, words, block.end),
    })
}

fn holding_blocks(
    alloc: Global,
    first: u32,
    words: &[u32],
    blocks: &[Block],
) -> Result<Vec<Block>, Memory>
    requires { first + length words.now < 2 ^ 32 }
    ensures { IfOk result (λ b. map block_of b.items ≡ opened (fills first words.now) (map (held_block first words.now) (map block_of blocks.now))) }
{
    let mut made = Vec::new(alloc);
    let Some((block, rest)) = blocks.split_first() else {
        return Ok(made);
    };
    made.push(first_block(alloc, first, words, block)?)?;
    add_blocks(alloc, first, words, rest, &mut made)?;
    Ok(made)
}

/// The words that a function may have, at most two for each of its loops.
fn words_in<'a>(words: &'a [u32], function: &Function) -> &'a [u32]
    ensures { result.now ≡ words_in words.now (function_of function.now) }
{
    let most = function.loops.len().saturating_mul(2).min(words.len());
    &words[..most]
}

/// A function with words in registers; one with more than 2^32 registers would not fit in memory.
fn held_function(alloc: Global, words: &[u32], function: &Function) -> Result<Function, Memory>
    ensures { IfOk result (λ f. function_of f ≡ holding (words_in words.now (function_of function.now)) (function_of function.now)) }
{
    let words = words_in(words, function);
    let first = function.registers;
    let Ok(more) = u32::try_from(words.len()) else {
        return Err(Memory);
    };
    let Some(registers) = first.checked_add(more) else {
        return Err(Memory);
    };
    Ok(Function {
        parameters: Vec::from_slice(alloc, &function.parameters)?,
        registers,
        loops: Vec::from_slice(alloc, &function.loops)?,
        blocks: holding_blocks(alloc, first, words, &function.blocks)?,
    })
}

fn words_at(words: &[Vec<u32>], f: usize) -> &[u32]
    ensures { result.now ≡ words_at (map claim_of words.now) f }
{
    match words.get(f) {
        None => &[],
        Some(words) => words,
    }
}

/// Functions with words in registers.
pub fn held_functions(
    alloc: Global,
    words: &[Vec<u32>],
    functions: &[Function],
) -> Result<Vec<Function>, Memory>
    ensures { IfOk result (λ f. map function_of f.items ≡ held_functions (map claim_of words.now) 0 (map function_of functions.now)) }
{
    let mut made = Vec::new(alloc);
    let mut number = 0;
    for function in functions {
        made.push(held_function(alloc, words_at(words, number), function)?)?;
        number += 1;
    }
    Ok(made)
}
