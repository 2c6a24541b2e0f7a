// What a walk makes of parts.
ghost use Rattle.std.specs.Prelude.{◌≡◌, ◌+◌, IfOk};
ghost use Rattle.high_code.specs.Code.{alone, joined};
ghost use Rattle.high_ir.specs.Tree.{If, Seq};
ghost use Rattle.high_ir.specs.View.{expr_of, statement_of, statements_of};

use high_again::expressions::copied_expr;
use high_ir::expression::Expr;
use high_ir::statement::Statement;
use high_ir::statements::{choice, let_go};
use std::alloc::Global;
use wcc_base::Memory;

/// A sum; one past 32 bits would number more than fits in memory.
pub fn sum(a: u32, b: u32) -> Result<u32, Memory>
    ensures { IfOk result (λ n. n ≡ a + b) }
{
    match a.checked_add(b) {
        Some(n) => Ok(n),
        None => Err(Memory),
    }
}

/// A statement of these parts.
#[tactic(auto, using(crate::proofs::Rows::seq_view))]
pub fn seq(parts: Vec<Statement>) -> Statement
    ensures { statement_of result ≡ Seq (statements_of parts.items) }
{
    Statement::Seq(parts)
}

/// A statement of these parts and one more.
#[tactic(auto, using(high_parts::proofs::Making::statements_push))]
pub fn seq_then(parts: Vec<Statement>, last: Statement) -> Result<Statement, Memory>
    ensures { IfOk result (λ s. statement_of s ≡ Seq (joined (statements_of parts.items) (alone (statement_of last)))) }
{
    let mut parts = parts;
    parts.push(last)?;
    Ok(seq(parts))
}

/// A choice between two statements, by a test that is made again.
pub fn chosen(
    alloc: Global,
    test: &Expr,
    first: Statement,
    other: Statement,
) -> Result<Statement, Memory>
    ensures { IfOk result (λ s. statement_of s ≡ If (expr_of test.now) (statement_of first) (statement_of other)) }
{
    match copied_expr(alloc, test) {
        Ok(test) => choice(alloc, test, first, other),
        Err(memory) => {
            let_go(first);
            let_go(other);
            Err(memory)
        }
    }
}
