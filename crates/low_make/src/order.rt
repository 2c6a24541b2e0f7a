// The functions that calls reach, callees first.
ghost use Rattle.std.specs.Prelude.{◌≡◌, ◌++◌, IfOk, map};
ghost use Rattle.high_ir.specs.Standing.{callees_of, callees_of_all};
ghost use Rattle.high_ir.specs.View.{function_of, statement_of, statements_of};
ghost use Rattle.low_ir.specs.Effects.{is_member};
ghost use Rattle.lower_definition.specs.Calls.{visited, visited_all};

use high_ir::Function;
use high_ir::statement::Statement;
use std::alloc::Global;
use wcc_base::Memory;

pub fn is_member(numbers: &[u32], number: u32) -> bool
    ensures { result ≡ is_member numbers.now number }
{
    for other in numbers {
        if *other == number {
            return true;
        }
    }
    false
}

/// The functions that a statement calls, behind others.
#[cycle(callees)]
fn callees(statement: &Statement, found: &mut Vec<u32>) -> Result<(), Memory>
    ensures { IfOk result (λ _. found.new.items ≡ found.old.items ++ callees_of (statement_of statement.now)) }
{
    match statement {
        Statement::Set { .. } => Ok(()),
        Statement::Put { .. } => Ok(()),
        Statement::Get { .. } => Ok(()),
        Statement::Keep { .. } => Ok(()),
        Statement::Mark { .. } => Ok(()),
        Statement::Seq(parts) => all_callees(parts, found),
        Statement::If { first, other, .. } => {
            callees(first, found)?;
            callees(other, found)
        }
        Statement::Loop { body, .. } => callees(body, found),
        Statement::Block(body) => callees(body, found),
        Statement::Leave { .. } => Ok(()),
        Statement::Call { function, .. } => {
            found.push(*function)?;
            Ok(())
        }
        Statement::Return { .. } => Ok(()),
    }
}

#[cycle(callees)]
fn all_callees(parts: &[Statement], found: &mut Vec<u32>) -> Result<(), Memory>
    ensures { IfOk result (λ _. found.new.items ≡ found.old.items ++ callees_of_all (statements_of parts.now)) }
{
    for part in parts {
        callees(part, found)?;
    }
    Ok(())
}

/// A function behind those that it calls, where calls nest less deep than `depth`.
#[cycle(visits)]
pub fn visit(
    alloc: Global,
    functions: &[Function],
    depth: u64,
    f: u32,
    done: &mut Vec<u32>,
) -> Result<(), Memory>
    ensures { IfOk result (λ _. done.new.items ≡ visited (map function_of functions.now) depth f done.old.items) }
{
    if depth == 0 {
        return Ok(());
    }
    if is_member(done, f) {
        return Ok(());
    }
    match functions.get(f as usize) {
        None => Ok(()),
        Some(function) => {
            let mut found = Vec::new(alloc);
            callees(&function.body, &mut found)?;
            visit_all(alloc, functions, depth - 1, &found, done)?;
            done.push(f)?;
            Ok(())
        }
    }
}

#[cycle(visits)]
fn visit_all(
    alloc: Global,
    functions: &[Function],
    depth: u64,
    numbers: &[u32],
    done: &mut Vec<u32>,
) -> Result<(), Memory>
    ensures { IfOk result (λ _. done.new.items ≡ visited_all (visited (map function_of functions.now) depth) numbers.now done.old.items) }
{
    for f in numbers {
        visit(alloc, functions, depth, *f, done)?;
    }
    Ok(())
}
