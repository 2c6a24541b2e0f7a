// Copies of statements, whose marks are new.
ghost use Rattle.std.specs.Prelude.{◌≡◌, IfOk, OnOk};
ghost use Rattle.high_ir.specs.Standing.{marks_of, marks_of_all};
ghost use Rattle.high_ir.specs.Tree.{If};
ghost use Rattle.high_ir.specs.View.{expr_of, statement_of, statements_of};
ghost use Rattle.high_unrolled.specs.Starts.{remarked, remarked_all};
ghost use Rattle.unroller.specs.View.{copied, progress_of};

use super::making::chosen;
use super::walk::Walk;
use high_again::statements::copied;
use high_ir::expression::Expr;
use high_ir::statement::Statement;
use high_ir::statements::{block, let_go, loop_of};
use high_unrolled::made::Made;
use wcc_base::Memory;

/// A copy of a statement.
#[cycle(remarked)]
#[tactic(auto, using(crate::proofs::Progress::none_copied))]
pub fn remarked(walk: &mut Walk, statement: &Statement) -> Result<Statement, Memory>
    ensures code { IfOk result (λ s. statement_of s ≡ remarked walk.old.marks (statement_of statement.now)) }
    ensures progress { OnOk result (progress_of walk.new ≡ copied (progress_of walk.old) (marks_of (statement_of statement.now))) }
{
    match statement {
        Statement::Set { .. } => Ok(copied(walk.alloc, statement)?),
        Statement::Put { .. } => Ok(copied(walk.alloc, statement)?),
        Statement::Get { .. } => Ok(copied(walk.alloc, statement)?),
        Statement::Keep { .. } => Ok(copied(walk.alloc, statement)?),
        Statement::Mark { id } => {
            let number = walk.mark(Made::CopyOf(*id))?;
            Ok(Statement::Mark { id: number })
        }
        Statement::Seq(parts) => {
            let made = remarked_all(walk, parts)?;
            Ok(Statement::Seq(made))
        }
        Statement::If { test, first, other } => Ok(remarked_choice(walk, test, first, other)?),
        Statement::Loop { id, min, max, body } => {
            let body = remarked(walk, body)?;
            Ok(loop_of(walk.alloc, *id, *min, *max, body)?)
        }
        Statement::Block(body) => {
            let body = remarked(walk, body)?;
            Ok(block(walk.alloc, body)?)
        }
        Statement::Leave { .. } => Ok(copied(walk.alloc, statement)?),
        Statement::Call { .. } => Ok(copied(walk.alloc, statement)?),
        Statement::Return { .. } => Ok(copied(walk.alloc, statement)?),
    }
}

#[cycle(remarked)]
fn remarked_all(walk: &mut Walk, parts: &[Statement]) -> Result<Vec<Statement>, Memory>
    ensures code { IfOk result (λ v. statements_of v.items ≡ remarked_all walk.old.marks (statements_of parts.now)) }
    ensures progress { OnOk result (progress_of walk.new ≡ copied (progress_of walk.old) (marks_of_all (statements_of parts.now))) }
{
    let mut made = Vec::new(walk.alloc);
    for part in parts {
        made.push(remarked(walk, part)?)?;
    }
    Ok(made)
}

#[cycle(remarked)]
fn remarked_choice(
    walk: &mut Walk,
    test: &Expr,
    first: &Statement,
    other: &Statement,
) -> Result<Statement, Memory>
    ensures code { IfOk result (λ s. statement_of s ≡ remarked walk.old.marks (If (expr_of test.now) (statement_of first.now) (statement_of other.now))) }
    ensures progress { OnOk result (progress_of walk.new ≡ copied (progress_of walk.old) (marks_of (If (expr_of test.now) (statement_of first.now) (statement_of other.now)))) }
{
    let first = remarked(walk, first)?;
    match remarked(walk, other) {
        Ok(other) => Ok(chosen(walk.alloc, test, first, other)?),
        Err(memory) => {
            let_go(first);
            Err(memory)
        }
    }
}
