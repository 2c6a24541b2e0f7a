// The walk over a function's body, from its end.
ghost use Rattle.std.specs.Prelude.{◌≡◌, IfOk, reverse, slice_index_or};
ghost use Rattle.high_ir.specs.Tree.{Block, If, Loop};
ghost use Rattle.high_ir.specs.View.{expr_of, statement_of, statements_of};
ghost use Rattle.lower_expression.specs.View.{scope_of};
ghost use Rattle.lower_definition.specs.Programs.{body_piece};
ghost use Rattle.lower_statement.specs.View.{exits_of, piece_of};
ghost use Rattle.lower_statement.specs.Whole.{run, run_all};

use super::coding::{call_code, get_code, keep_code, put_code, set_code, test_code, value_code};
use super::emitter::{Emitter, Turns};
use high_ir::expression::Expr;
use high_ir::statement::Statement;
use low_ir::End;
use lower_coder::numbers::offset;
use lower_expression::Scope;
use wcc_base::Memory;

/// Where a leave goes; each has its block.
fn exit(exits: &[u32], depth: u32) -> u32
    ensures { result ≡ slice_index_or (reverse exits.now) depth 0 }
{
    let outward = depth as usize;
    if outward < exits.len() {
        return exits[exits.len() - 1 - outward];
    }
    0
}

/// A statement before the code that is there.
#[cycle(statements)]
fn piece(
    scope: &Scope,
    statement: &Statement,
    exits: &mut Vec<u32>,
    emitter: &mut Emitter,
) -> Result<(), Memory>
    ensures code { IfOk result (λ _. piece_of emitter.new ≡ run (scope_of scope.now) (statement_of statement.now) (exits_of exits.old) (piece_of emitter.old)) }
    ensures exits { IfOk result (λ _. exits.new.items ≡ exits.old.items) }
{
    let free = emitter.free;
    match statement {
        Statement::Set { variable, value } => {
            emitter.precede(set_code(scope, *variable, value, free)?)
        }
        Statement::Put { value } => emitter.precede(put_code(scope, value, free)?),
        Statement::Get { into } => emitter.precede(get_code(scope, *into, free)?),
        Statement::Keep {
            array,
            index,
            value,
        } => emitter.precede(keep_code(scope, *array, index, value, free)?),
        Statement::Mark { id } => emitter.mark(*id),
        Statement::Seq(parts) => pieces(scope, parts, exits, emitter),
        Statement::If { test, first, other } => {
            choice(scope, test, first, other, exits, emitter)
        }
        Statement::Loop { id, min, max, body } => {
            let turns = Turns {
                id: *id,
                min: *min,
                max: *max,
            };
            looped(scope, turns, body, exits, emitter)
        }
        Statement::Block(body) => in_block(scope, body, exits, emitter),
        Statement::Leave { depth } => {
            emitter.jump(exit(exits, *depth));
            Ok(())
        }
        Statement::Call {
            function,
            values,
            arrays,
            into,
        } => emitter.precede(call_code(scope, *function, values, arrays, *into, free)?),
        Statement::Return { value } => {
            let (coder, value) = value_code(scope, value, free)?;
            emitter.set_apart(coder, End::Return { value })
        }
    }
}

/// Statements before the code that is there; the last one is made first.
#[cycle(statements)]
fn pieces(
    scope: &Scope,
    parts: &[Statement],
    exits: &mut Vec<u32>,
    emitter: &mut Emitter,
) -> Result<(), Memory>
    ensures code { IfOk result (λ _. piece_of emitter.new ≡ run_all (scope_of scope.now) (statements_of parts.now) (exits_of exits.old) (piece_of emitter.old)) }
    ensures exits { IfOk result (λ _. exits.new.items ≡ exits.old.items) }
{
    let mut i = parts.len();
    while i > 0 {
        i -= 1;
        piece(scope, &parts[i], exits, emitter)?;
    }
    Ok(())
}

/// A choice between two statements: the other one stands behind the first one.
#[cycle(statements)]
fn choice(
    scope: &Scope,
    test: &Expr,
    first: &Statement,
    other: &Statement,
    exits: &mut Vec<u32>,
    emitter: &mut Emitter,
) -> Result<(), Memory>
    ensures code { IfOk result (λ _. piece_of emitter.new ≡ run (scope_of scope.now) (If (expr_of test.now) (statement_of first.now) (statement_of other.now)) (exits_of exits.old) (piece_of emitter.old)) }
    ensures exits { IfOk result (λ _. exits.new.items ≡ exits.old.items) }
{
    let join = emitter.land()?;
    piece(scope, other, exits, emitter)?;
    let other = emitter.land()?;
    emitter.jump(join);
    piece(scope, first, exits, emitter)?;
    let first = emitter.land()?;
    let (coder, test) = test_code(scope, test, emitter.free)?;
    emitter.branch(coder, test, first, other)?;
    Ok(())
}

/// A loop.
#[cycle(statements)]
fn looped(
    scope: &Scope,
    turns: Turns,
    body: &Statement,
    exits: &mut Vec<u32>,
    emitter: &mut Emitter,
) -> Result<(), Memory>
    ensures code { IfOk result (λ _. piece_of emitter.new ≡ run (scope_of scope.now) (Loop turns.id turns.min turns.max (statement_of body.now)) (exits_of exits.old) (piece_of emitter.old)) }
    ensures exits { IfOk result (λ _. exits.new.items ≡ exits.old.items) }
{
    let latch = emitter.latch()?;
    piece(scope, body, exits, emitter)?;
    emitter.close_loop(turns, latch)?;
    Ok(())
}

/// A statement that leaves may go behind.
#[cycle(statements)]
fn in_block(
    scope: &Scope,
    body: &Statement,
    exits: &mut Vec<u32>,
    emitter: &mut Emitter,
) -> Result<(), Memory>
    ensures code { IfOk result (λ _. piece_of emitter.new ≡ run (scope_of scope.now) (Block (statement_of body.now)) (exits_of exits.old) (piece_of emitter.old)) }
    ensures exits { IfOk result (λ _. exits.new.items ≡ exits.old.items) }
{
    let around = exits.len();
    let join = emitter.land()?;
    exits.push(join)?;
    piece(scope, body, exits, emitter)?;
    exits.truncate(around);
    Ok(())
}

/// The code of a function: its opening mark, and then its body.
pub fn body(scope: &Scope, opening: u32, body: &Statement) -> Result<Emitter, Memory>
    ensures { IfOk result (λ e. piece_of e ≡ body_piece (scope_of scope.now) opening (statement_of body.now)) }
{
    let free = offset(scope.variables, scope.claims.len())?;
    let mut emitter = Emitter::new(scope.alloc, free);
    let mut exits = Vec::new(scope.alloc);
    piece(scope, body, &mut exits, &mut emitter)?;
    emitter.mark(opening)?;
    Ok(emitter)
}
