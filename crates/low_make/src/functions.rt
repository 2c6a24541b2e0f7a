// The functions of a program.
ghost use Rattle.std.specs.Prelude.{◌≡◌, ◌++◌, IfOk, map, reverse};
ghost use Rattle.std.specs.List.{range_with_len};
ghost use Rattle.high_ir.specs.View.{function_of as high_function};
ghost use Rattle.lower_expression.specs.View.{scope_of};
ghost use Rattle.low_ir.specs.View.{block_of, end_of, function_of, loop_of};
ghost use Rattle.lower_definition.specs.Programs as programs;
ghost use Rattle.lower_definition.specs.Programs.{lowered_function, turned, turned_end, turned_loop};
ghost use Rattle.lower_statement.specs.View.{piece_of};

use high_ir::Function as HighFunction;
use low_ir::{Block, End, Function, Loop};
use lower_coder::numbers::{count, sum};
use lower_expression::Scope;
use lower_statement::{Emitter, body};
use std::alloc::Global;
use wcc_base::Memory;

/// Where a block goes on to, by the numbers of blocks from the beginning; the first block has the number `last` from the end.
fn turned_end(last: u32, end: End) -> End
    ensures { end_of result ≡ turned_end last (end_of end) }
{
    match end {
        End::Jump { block } => End::Jump {
            block: last.saturating_sub(block),
        },
        End::Branch {
            condition,
            left,
            right,
            taken,
            other,
        } => End::Branch {
            condition,
            left,
            right,
            taken: last.saturating_sub(taken),
            other: last.saturating_sub(other),
        },
        End::Return { value } => End::Return { value },
    }
}

/// Blocks that are kept last one first, in their order.
fn turned_blocks(alloc: Global, last: u32, blocks: Vec<Block>) -> Result<Vec<Block>, Memory>
    ensures { IfOk result (λ b. map block_of b.items ≡ map (turned last) (reverse (map block_of blocks.items))) }
{
    let mut blocks = blocks;
    let mut turned = Vec::new(alloc);
    while let Some(block) = blocks.pop() {
        turned.push(Block {
            mark: block.mark,
            code: block.code,
            end: turned_end(last, block.end),
        })?;
    }
    Ok(turned)
}

/// Loops that are kept last one first, in their order.
fn turned_loops(alloc: Global, last: u32, loops: Vec<Loop>) -> Result<Vec<Loop>, Memory>
    ensures { IfOk result (λ l. map loop_of l.items ≡ map (turned_loop last) (reverse (map loop_of loops.items))) }
{
    let mut loops = loops;
    let mut turned = Vec::new(alloc);
    while let Some(other) = loops.pop() {
        turned.push(Loop {
            id: other.id,
            min: other.min,
            max: other.max,
            header: last.saturating_sub(other.header),
            latch: last.saturating_sub(other.latch),
        })?;
    }
    Ok(turned)
}

/// So many registers from a first one on, behind others.
fn add_registers(first: u32, length: u32, registers: &mut Vec<u32>) -> Result<(), Memory>
    ensures { IfOk result (λ _. registers.new.items ≡ registers.old.items ++ range_with_len first length) }
{
    for i in 0..length {
        registers.push(sum(first, i)?)?;
    }
    Ok(())
}

/// The registers of a function's parameters: its values, and then its arrays.
fn parameters(scope: &Scope, function: &HighFunction) -> Result<Vec<u32>, Memory>
    ensures { IfOk result (λ p. p.items ≡ range_with_len 0 function.now.values ++ range_with_len scope.now.variables function.now.arrays) }
{
    let mut registers = Vec::new(scope.alloc);
    add_registers(0, function.values, &mut registers)?;
    add_registers(scope.variables, function.arrays, &mut registers)?;
    Ok(registers)
}

/// A function of this code.
fn finished(scope: &Scope, function: &HighFunction, emitter: Emitter) -> Result<Function, Memory>
    ensures { IfOk result (λ f. function_of f ≡ programs.function_of (scope_of scope.now) (high_function function.now) (piece_of emitter)) }
{
    let alloc = scope.alloc;
    let last = count(emitter.blocks.len())?;
    let registers = emitter.free;
    let (blocks, loops) = emitter.finish()?;
    Ok(Function {
        parameters: parameters(scope, function)?,
        registers,
        loops: turned_loops(alloc, last, loops)?,
        blocks: turned_blocks(alloc, last, blocks)?,
    })
}

/// A function in the low form.
pub fn lowered_function(scope: &Scope, f: u32, function: &HighFunction) -> Result<Function, Memory>
    ensures { IfOk result (λ g. function_of g ≡ lowered_function (scope_of scope.now) f (high_function function.now)) }
{
    let emitter = body(scope, f, &function.body)?;
    finished(scope, function, emitter)
}
