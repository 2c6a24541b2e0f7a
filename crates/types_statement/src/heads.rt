// The beginnings of loops and switches.
ghost use Rattle.std.specs.Prelude.{◌≡◌, ◌+◌, IfOk, OnOk};
ghost use Rattle.c_tree.specs.Named.{map_option};
ghost use Rattle.c_tree.specs.View.{expr_of as source_of, start_of as source_start};
ghost use Rattle.types_rules.specs.Scope.{entered, with_loop};
ghost use Rattle.types_statement.specs.Checked.{IsChoice, IsHead, IsTest};

use super::checked::{Begun, BegunFor, BegunWhile, CheckedHead, CheckedTest};
use super::parts::{check_choice, check_option, check_start, check_test, copy_bound};
use c_tree::Pragma;
use c_tree::expression::Expr as Source;
use c_tree::statement::ForHead as SourceHead;
use std::alloc::{AllocError, Global};
use types_scope::Table;
use types_tree::statement::LoopId;

fn boxed(head: CheckedHead, alloc: Global) -> Result<Box<CheckedHead>, AllocError>
    ensures { IfOk result (λ b. b.value ≡ head) }
{
    Ok(Box::new(alloc, head)?)
}

/// Checks the head of a `for`, and declares what it declares.
pub fn check_head(
    head: &SourceHead,
    table: &mut Table,
    alloc: Global,
) -> Result<Box<CheckedHead>, AllocError>
    ensures { IfOk result (λ r. IsHead r.value (source_start head.now.start) (map_option source_of head.now.test) (map_option source_of head.now.step) table.old table.new) }
{
    let start = check_start(&head.start, table, alloc)?;
    match check_option(&head.test, table, alloc) {
        Ok(test) => match check_option(&head.step, table, alloc) {
            Ok(step) => boxed(CheckedHead { start, test, step }, alloc),
            Err(memory) => {
                drop(start);
                drop(test);
                Err(memory)
            }
        },
        Err(memory) => {
            drop(start);
            Err(memory)
        }
    }
}

/// Counts a loop.
pub fn begin_loop(
    bound: &Option<Pragma>,
    at: u32,
    table: &mut Table,
    alloc: Global,
) -> Result<Begun, AllocError>
    ensures number { IfOk result (λ r. r.number.0 ≡ table.old.loops + 1) }
    ensures bound { IfOk result (λ r. r.bound ≡ bound.now) }
    ensures at { IfOk result (λ r. r.at ≡ at) }
    ensures after { OnOk result (table.new ≡ with_loop table.old) }
{
    table.count_loop()?;
    let number = LoopId(table.loops());
    let bound = copy_bound(bound, alloc)?;
    Ok(Begun { number, bound, at })
}

/// Counts a `while`, and checks its test.
pub fn begin_while(
    bound: &Option<Pragma>,
    test: &Source,
    at: u32,
    table: &mut Table,
    alloc: Global,
) -> Result<BegunWhile, AllocError>
    ensures number { IfOk result (λ r. r.begun.number.0 ≡ table.old.loops + 1) }
    ensures bound { IfOk result (λ r. r.begun.bound ≡ bound.now) }
    ensures at { IfOk result (λ r. r.begun.at ≡ at) }
    ensures test { IfOk result (λ r. IsTest r.test (source_of test.now) at (with_loop table.old)) }
    ensures after { OnOk result (table.new ≡ with_loop table.old) }
{
    let begun = begin_loop(bound, at, table, alloc)?;
    match check_test(test, at, table, alloc) {
        Ok(test) => Ok(BegunWhile { begun, test }),
        Err(memory) => {
            begun.let_go();
            Err(memory)
        }
    }
}

/// Enters a `for`, counts it, and checks its head.
pub fn begin_for(
    bound: &Option<Pragma>,
    head: &SourceHead,
    at: u32,
    table: &mut Table,
    alloc: Global,
) -> Result<BegunFor, AllocError>
    ensures number { IfOk result (λ r. r.begun.number.0 ≡ table.old.loops + 1) }
    ensures bound { IfOk result (λ r. r.begun.bound ≡ bound.now) }
    ensures at { IfOk result (λ r. r.begun.at ≡ at) }
    ensures head { IfOk result (λ r. IsHead r.head.value (source_start head.now.start) (map_option source_of head.now.test) (map_option source_of head.now.step) (with_loop (entered table.old)) table.new) }
{
    table.enter(alloc)?;
    let begun = begin_loop(bound, at, table, alloc)?;
    match check_head(head, table, alloc) {
        Ok(head) => Ok(BegunFor { begun, head }),
        Err(memory) => {
            begun.let_go();
            Err(memory)
        }
    }
}

/// Checks what a `switch` chooses by, and enters it.
pub fn begin_switch(
    test: &Source,
    at: u32,
    table: &mut Table,
    alloc: Global,
) -> Result<CheckedTest, AllocError>
    ensures choice { IfOk result (λ r. IsChoice r (source_of test.now) at table.old) }
    ensures after { OnOk result (table.new ≡ entered table.old) }
{
    let choice = check_choice(test, at, table, alloc)?;
    match table.enter(alloc) {
        Ok(_) => Ok(choice),
        Err(memory) => {
            choice.let_go();
            Err(memory)
        }
    }
}
