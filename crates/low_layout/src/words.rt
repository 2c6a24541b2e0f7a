// Displacements are words: each is a `u32`, which shows where it is read.
ghost use Rattle.std.specs.Prelude.{◌<◌, ◌^◌, All};
ghost use Rattle.low_ir.specs.Placings.{placed_of};
ghost use Rattle.image_definition.specs.Sizes.{HasWords};
ghost use Rattle.low_layout.specs.Words.{InstrHasWords, BlockHasWords, FunctionHasWords};

use low_ir::{Address, Block, Function, Instr, LowReg};

fn is_word(address: &Address)
    ensures { address.now.displacement < 2 ^ 32 }
{
    let _displacement = address.displacement;
}

fn instr_has_words(instr: &Instr)
    ensures { InstrHasWords instr.now }
{
    match instr {
        Instr::Set { .. } => {}
        Instr::Operate { .. } => {}
        Instr::Point { address, .. } => is_word(address),
        Instr::Load { address, .. } => is_word(address),
        Instr::Store { address, .. } => is_word(address),
        Instr::Put { .. } => {}
        Instr::Get { .. } => {}
        Instr::Call { .. } => {}
    }
}

fn code_has_words(code: &[Instr])
    ensures { All InstrHasWords code.now }
{
    for i in 0..code.len() {
        instr_has_words(&code[i]);
    }
}

fn block_has_words(block: &Block)
    ensures { BlockHasWords block.now }
{
    code_has_words(&block.code);
}

fn blocks_have_words(blocks: &[Block])
    ensures { All BlockHasWords blocks.now }
{
    for i in 0..blocks.len() {
        block_has_words(&blocks[i]);
    }
}

fn function_has_words(function: &Function)
    ensures { FunctionHasWords function.now }
{
    blocks_have_words(&function.blocks);
}

fn functions_have_words(functions: &[Function])
    ensures { All FunctionHasWords functions.now }
{
    for i in 0..functions.len() {
        function_has_words(&functions[i]);
    }
}

/// The displacements of a program are words.
pub fn has_words(code: &LowReg)
    ensures { HasWords (placed_of code.now) }
{
    functions_have_words(&code.low.functions);
}
