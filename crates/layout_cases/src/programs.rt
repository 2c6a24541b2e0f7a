// The sum of three squares, a program with a loop and a call.
ghost use Rattle.std.specs.Prelude.{◌≡◌, [], Some, IfOk, slice_get};
ghost use Rattle.low_ir.specs.Example.{square, squares};
ghost use Rattle.low_ir.specs.View.{block_of, end_of, function_of};

use low_ir::object::Object;
use low_ir::{Block, End, Function, Instr, Loop, Low, Operand};
use rv_core::{Alu, Condition};
use std::alloc::Global;
use wcc_base::Memory;

/// A block without instructions.
fn empty(alloc: Global, mark: Option<u32>, end: End) -> Block
    ensures { block_of result ≡ record { mark = mark; code = []; end = end_of end } }
{
    Block {
        mark,
        code: Vec::new(alloc),
        end,
    }
}

fn square(alloc: Global) -> Result<Function, Memory>
    ensures { IfOk result (λ f. function_of f ≡ square) }
{
    let mut code = Vec::new(alloc);
    code.push(Instr::Operate {
        operator: Alu::Product,
        into: 1,
        left: Operand::Register(0),
        right: Operand::Register(0),
    })?;
    let mut blocks = Vec::new(alloc);
    blocks.push(Block {
        mark: Some(0),
        code,
        end: End::Return {
            value: Operand::Register(1),
        },
    })?;
    Ok(Function {
        parameters: vec![in alloc; 0]?,
        registers: 2,
        loops: Vec::new(alloc),
        blocks,
    })
}

/// The start of the loop: three more squares, and nothing summed up.
fn before(alloc: Global) -> Result<Block, Memory>
    ensures { IfOk result (λ b. Some (block_of b) ≡ slice_get squares.blocks 1) }
{
    let mut code = Vec::new(alloc);
    code.push(Instr::Set {
        into: 0,
        value: Operand::Constant(3),
    })?;
    code.push(Instr::Set {
        into: 1,
        value: Operand::Constant(0),
    })?;
    Ok(Block {
        mark: None,
        code,
        end: End::Jump { block: 2 },
    })
}

/// The body of the loop: one more square.
fn body(alloc: Global) -> Result<Block, Memory>
    ensures { IfOk result (λ b. Some (block_of b) ≡ slice_get squares.blocks 3) }
{
    let mut arguments = Vec::new(alloc);
    arguments.push(Operand::Register(0))?;
    let mut code = Vec::new(alloc);
    code.push(Instr::Call {
        function: 0,
        arguments,
        into: Some(2),
    })?;
    code.push(Instr::Operate {
        operator: Alu::Sum,
        into: 1,
        left: Operand::Register(1),
        right: Operand::Register(2),
    })?;
    code.push(Instr::Operate {
        operator: Alu::Difference,
        into: 0,
        left: Operand::Register(0),
        right: Operand::Constant(1),
    })?;
    Ok(Block {
        mark: None,
        code,
        end: End::Jump { block: 4 },
    })
}

fn behind(alloc: Global) -> Result<Block, Memory>
    ensures { IfOk result (λ b. Some (block_of b) ≡ slice_get squares.blocks 5) }
{
    let mut code = Vec::new(alloc);
    code.push(Instr::Put {
        value: Operand::Register(1),
    })?;
    Ok(Block {
        mark: None,
        code,
        end: End::Return {
            value: Operand::Register(1),
        },
    })
}

fn squares(alloc: Global) -> Result<Function, Memory>
    ensures { IfOk result (λ f. function_of f ≡ squares) }
{
    let test = End::Branch {
        condition: Condition::Equal,
        left: Operand::Register(0),
        right: Operand::Constant(0),
        taken: 5,
        other: 3,
    };
    let mut blocks = Vec::new(alloc);
    blocks.push(empty(alloc, Some(1), End::Jump { block: 1 }))?;
    blocks.push(before(alloc)?)?;
    blocks.push(empty(alloc, Some(2), test))?;
    blocks.push(body(alloc)?)?;
    blocks.push(empty(alloc, None, End::Jump { block: 2 }))?;
    blocks.push(behind(alloc)?)?;
    let mut loops = Vec::new(alloc);
    loops.push(Loop {
        id: 0,
        min: 4,
        max: 4,
        header: 2,
        latch: 4,
    })?;
    Ok(Function {
        parameters: Vec::new(alloc),
        registers: 3,
        loops,
        blocks,
    })
}

/// The program, with arrays that it doesn't touch. Function 0 squares its argument; function 1 counts from 3 down to 0, and puts
/// and returns the sum. Mark 2 counts the tests of its loop.
pub fn sum_of_squares(alloc: Global, objects: Vec<Object>) -> Result<Low, Memory> {
    let mut functions = Vec::new(alloc);
    functions.push(square(alloc)?)?;
    functions.push(squares(alloc)?)?;
    Ok(Low {
        functions,
        claims: Vec::new(alloc),
        objects,
        main: 1,
        marks: 3,
    })
}
