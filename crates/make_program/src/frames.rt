// How many variables a frame needs.
ghost use Rattle.std.specs.Prelude.{◌≡◌, IfOk};
ghost use Rattle.high_code.specs.Code.{frame_needed, frame_needed_all, into_needed};
ghost use Rattle.high_ir.specs.View.{statement_of, statements_of};

use high_ir::statement::Statement;
use make_pieces::numbers::sum;
use wcc_base::Memory;

fn into_needed(into: Option<u32>) -> Result<u32, Memory>
    ensures { IfOk result (λ n. n ≡ into_needed into) }
{
    match into {
        None => Ok(0),
        Some(x) => sum(x, 1),
    }
}

/// How many variables a frame needs for what a statement assigns.
#[cycle(needed)]
pub fn frame_needed(statement: &Statement) -> Result<u32, Memory>
    ensures { IfOk result (λ n. n ≡ frame_needed (statement_of statement.now)) }
{
    match statement {
        Statement::Set { variable, .. } => sum(*variable, 1),
        Statement::Put { .. } => Ok(0),
        Statement::Get { into } => sum(*into, 1),
        Statement::Keep { .. } => Ok(0),
        Statement::Mark { .. } => Ok(0),
        Statement::Seq(parts) => frame_needed_all(parts),
        Statement::If { first, other, .. } => {
            let needed = frame_needed(first)?;
            Ok(needed.max(frame_needed(other)?))
        }
        Statement::Loop { body, .. } => frame_needed(body),
        Statement::Block(body) => frame_needed(body),
        Statement::Leave { .. } => Ok(0),
        Statement::Call { into, .. } => into_needed(*into),
        Statement::Return { .. } => Ok(0),
    }
}

#[cycle(needed)]
fn frame_needed_all(statements: &[Statement]) -> Result<u32, Memory>
    ensures { IfOk result (λ n. n ≡ frame_needed_all (statements_of statements.now)) }
{
    let mut needed = 0u32;
    for statement in statements {
        needed = needed.max(frame_needed(statement)?);
    }
    Ok(needed)
}
