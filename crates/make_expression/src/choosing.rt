// Choices, by values and by jumps.
ghost use Rattle.std.specs.Prelude.{◌≡◌, IfOk};
ghost use Rattle.make_pieces.specs.View.{code_of, valued_of};
ghost use Rattle.high_code.specs.Code.{alone, joined};
ghost use Rattle.high_ir.specs.Tree.{Block, Constant, Leave, Seq, Set};
ghost use Rattle.high_ir.specs.View.{statement_of};
ghost use Rattle.plan_definition.specs.Values.{chosen, chosen_by_jumps, noted};

use high_ir::expression::Expr;
use high_ir::statement::Statement;
use high_ir::statements::choice;
use make_pieces::{Code, Valued};
use std::alloc::Global;
use wcc_base::Memory;

/// Puts a number into a variable.
fn set(variable: u32, word: u32) -> Statement
    ensures { statement_of result ≡ Set variable (Constant word) }
{
    Statement::Set {
        variable,
        value: Expr::Constant(word),
    }
}

/// A number in the temporary, and another one where code for jumps doesn't leave its block.
pub fn noted(alloc: Global, k: u32, before: u32, behind: u32, jumps: Code) -> Result<Valued, Memory>
    ensures { IfOk result (λ v. valued_of v ≡ noted k before behind (code_of jumps)) }
{
    let noting = jumps.then(set(k, behind))?.in_block(alloc)?;
    match Code::alone(alloc, set(k, before)) {
        Ok(code) => Ok(Valued {
            code: code.joined(noting)?,
            value: Expr::Variable(k),
        }),
        Err(memory) => {
            noting.let_go();
            Err(memory)
        }
    }
}

/// Code that is run where a test holds, and other code.
pub fn chosen(alloc: Global, test: Valued, first: Code, other: Code) -> Result<Code, Memory>
    ensures { IfOk result (λ c. code_of c ≡ chosen (valued_of test) (code_of first) (code_of other)) }
{
    let Valued { code, value } = test;
    match choice(alloc, value, first.seq(), other.seq()) {
        Ok(choice) => code.then(choice),
        Err(memory) => {
            code.let_go();
            Err(memory)
        }
    }
}

/// The block that jumps leave, or that is left behind its code.
fn skipping(alloc: Global, jumps: Code, first: Code) -> Result<Code, Memory>
    ensures { IfOk result (λ c. code_of c ≡ alone (Block (Seq (joined (code_of jumps) (joined (code_of first) (alone (Leave 1))))))) }
{
    match first.then(Statement::Leave { depth: 1 }) {
        Ok(first) => jumps.joined(first)?.in_block(alloc),
        Err(memory) => {
            jumps.let_go();
            Err(memory)
        }
    }
}

/// The same choice, where jumps leave the first of two blocks to come to the other code.
pub fn chosen_by_jumps(alloc: Global, jumps: Code, first: Code, other: Code) -> Result<Code, Memory>
    ensures { IfOk result (λ c. code_of c ≡ chosen_by_jumps (code_of jumps) (code_of first) (code_of other)) }
{
    match skipping(alloc, jumps, first) {
        Ok(code) => code.joined(other)?.in_block(alloc),
        Err(memory) => {
            other.let_go();
            Err(memory)
        }
    }
}
