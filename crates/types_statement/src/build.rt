// Statements, once their parts are walked.
ghost use Rattle.std.specs.Prelude.{◌≡◌, IfOk, None};
ghost use Rattle.c_tree.specs.Named.{map_option};
ghost use Rattle.c_tree.specs.Tree.{Evaluate, Marker, Return};
ghost use Rattle.c_tree.specs.View.{expr_of as source_of};
ghost use Rattle.types_tree.specs.Tree.{Block, Do, For, If, IfElse, Switch, While};
ghost use Rattle.types_tree.specs.View.{expr_of, items_of, start_of, statement_of};
ghost use Rattle.types_rules.specs.Scope.{or_else};
ghost use Rattle.types_rules.specs.Sights.{first_fault, value_nodes};
ghost use Rattle.types_rules.specs.Types.{kind_of};
ghost use Rattle.types_rules.specs.Typing.{typed_value};
ghost use Rattle.types_value.specs.Kinds.{is_void};
ghost use Rattle.types_statement.specs.Checked.{IsStatement, void_fault};
ghost use Rattle.types_statement.specs.Within.{within_said};

use super::checked::{
    Begun, BegunFor, BegunWhile, CheckedHead, CheckedItems, CheckedStatement, CheckedTest, Within,
};
use super::parts::{check_option_at, check_test, copy_pragma, differ, has_value, own_fault};
use c_tree::Pragma;
use c_tree::expression::Expr as Source;
use std::alloc::{AllocError, Global};
use types_expression::{check, first_of};
use types_rules::Fault;
use types_scope::Table;
use types_tree::statement::{MarkerId, Statement};

fn boxed(statement: Statement, alloc: Global) -> Result<Box<Statement>, AllocError>
    ensures { IfOk result (λ b. b.value ≡ statement) }
{
    Ok(Box::new(alloc, statement)?)
}

/// A statement in which this was found.
pub fn made(
    statement: Statement,
    fault: Option<Fault>,
    alloc: Global,
) -> Result<CheckedStatement, AllocError>
    ensures statement { IfOk result (λ r. r.statement.value ≡ statement) }
    ensures fault { IfOk result (λ r. r.fault ≡ fault) }
{
    let statement = boxed(statement, alloc)?;
    Ok(CheckedStatement { statement, fault })
}

pub fn make_block(
    inner: CheckedItems,
    at: u32,
    alloc: Global,
) -> Result<CheckedStatement, AllocError>
    ensures statement { IfOk result (λ r. statement_of r.statement.value ≡ Block (items_of inner.items.items) at) }
    ensures fault { IfOk result (λ r. r.fault ≡ inner.fault) }
{
    made(Statement::block(inner.items, at), inner.fault, alloc)
}

pub fn make_switch(
    choice: CheckedTest,
    inner: CheckedItems,
    at: u32,
    alloc: Global,
) -> Result<CheckedStatement, AllocError>
    ensures statement { IfOk result (λ r. statement_of r.statement.value ≡ Switch (expr_of choice.test.value) (items_of inner.items.items) at) }
    ensures fault { IfOk result (λ r. r.fault ≡ or_else choice.own (or_else choice.fault inner.fault)) }
{
    let fault = first_of(choice.own, first_of(choice.fault, inner.fault));
    let test = Box::into_inner(choice.test);
    made(Statement::switch(test, inner.items, at), fault, alloc)
}

pub fn make_if(
    test: CheckedTest,
    first: CheckedStatement,
    at: u32,
    alloc: Global,
) -> Result<CheckedStatement, AllocError>
    ensures statement { IfOk result (λ r. statement_of r.statement.value ≡ If (expr_of test.test.value) (statement_of first.statement.value) at) }
    ensures fault { IfOk result (λ r. r.fault ≡ or_else test.own (or_else test.fault first.fault)) }
{
    let fault = first_of(test.own, first_of(test.fault, first.fault));
    let statement = Statement::If {
        test: Box::into_inner(test.test),
        then: first.statement,
        at,
    };
    made(statement, fault, alloc)
}

pub fn make_if_else(
    test: CheckedTest,
    first: CheckedStatement,
    second: CheckedStatement,
    at: u32,
    alloc: Global,
) -> Result<CheckedStatement, AllocError>
    ensures statement { IfOk result (λ r. statement_of r.statement.value ≡ IfElse (expr_of test.test.value) (statement_of first.statement.value) (statement_of second.statement.value) at) }
    ensures fault { IfOk result (λ r. r.fault ≡ or_else test.own (or_else test.fault (or_else first.fault second.fault))) }
{
    let parts = first_of(test.fault, first_of(first.fault, second.fault));
    let fault = first_of(test.own, parts);
    let statement = Statement::IfElse {
        test: Box::into_inner(test.test),
        then: first.statement,
        otherwise: second.statement,
        at,
    };
    made(statement, fault, alloc)
}

pub fn make_while(
    head: BegunWhile,
    body: CheckedStatement,
    alloc: Global,
) -> Result<CheckedStatement, AllocError>
    ensures statement { IfOk result (λ r. statement_of r.statement.value ≡ While head.begun.number.0 head.begun.bound (expr_of head.test.test.value) (statement_of body.statement.value) head.begun.at) }
    ensures fault { IfOk result (λ r. r.fault ≡ or_else head.test.own (or_else head.test.fault body.fault)) }
{
    let BegunWhile { begun, test } = head;
    let fault = first_of(test.own, first_of(test.fault, body.fault));
    let statement = Statement::While {
        number: begun.number,
        bound: begun.bound,
        test: Box::into_inner(test.test),
        body: body.statement,
        at: begun.at,
    };
    made(statement, fault, alloc)
}

fn make_do(
    begun: Begun,
    body: CheckedStatement,
    test: CheckedTest,
    alloc: Global,
) -> Result<CheckedStatement, AllocError>
    ensures statement { IfOk result (λ r. statement_of r.statement.value ≡ Do begun.number.0 begun.bound (statement_of body.statement.value) (expr_of test.test.value) begun.at) }
    ensures fault { IfOk result (λ r. r.fault ≡ or_else test.own (or_else body.fault test.fault)) }
{
    let fault = first_of(test.own, first_of(body.fault, test.fault));
    let statement = Statement::Do {
        number: begun.number,
        bound: begun.bound,
        body: body.statement,
        test: Box::into_inner(test.test),
        at: begun.at,
    };
    made(statement, fault, alloc)
}

/// Checks the test of a `do`, and makes it.
pub fn end_do(
    begun: Begun,
    body: CheckedStatement,
    test: &Source,
    table: &Table,
    alloc: Global,
) -> Result<CheckedStatement, AllocError>
    ensures statement { IfOk result (λ r. statement_of r.statement.value ≡ Do begun.number.0 begun.bound (statement_of body.statement.value) (typed_value (source_of test.now) table.now) begun.at) }
    ensures fault { IfOk result (λ r. r.fault ≡ or_else (void_fault (is_void (kind_of (source_of test.now) table.now)) begun.at) (or_else body.fault (first_fault (value_nodes (source_of test.now) table.now)))) }
{
    match check_test(test, begun.at, table, alloc) {
        Ok(test) => make_do(begun, body, test, alloc),
        Err(memory) => {
            begun.let_go();
            body.let_go();
            Err(memory)
        }
    }
}

pub fn make_for(
    begun: BegunFor,
    body: CheckedStatement,
    alloc: Global,
) -> Result<CheckedStatement, AllocError>
    ensures statement { IfOk result (λ r. statement_of r.statement.value ≡ For begun.begun.number.0 begun.begun.bound (start_of begun.head.value.start.start) (map_option expr_of begun.head.value.test.value) (map_option expr_of begun.head.value.step.value) (statement_of body.statement.value) begun.begun.at) }
    ensures fault { IfOk result (λ r. r.fault ≡ or_else (void_fault begun.head.value.test.void begun.begun.at) (or_else begun.head.value.start.fault (or_else begun.head.value.test.fault (or_else begun.head.value.step.fault body.fault)))) }
{
    let BegunFor { begun, head } = begun;
    let CheckedHead { start, test, step } = Box::into_inner(head);
    let own = own_fault(test.void, false, false, begun.at);
    let parts = first_of(test.fault, first_of(step.fault, body.fault));
    let fault = first_of(own, first_of(start.fault, parts));
    let statement = Statement::For {
        number: begun.number,
        bound: begun.bound,
        start: start.start,
        test: test.value,
        step: step.value,
        body: body.statement,
        at: begun.at,
    };
    made(statement, fault, alloc)
}

/// Checks an expression that is evaluated for what it does.
pub fn check_evaluate(
    value: &Source,
    within: Within,
    at: u32,
    table: &Table,
    alloc: Global,
) -> Result<CheckedStatement, AllocError>
    ensures { IfOk result (λ r. IsStatement r (Evaluate (source_of value.now) at) (within_said within) table.now table.now) }
{
    let inner = check(value, false, table, alloc)?;
    let fault = inner.fault;
    let value = Box::into_inner(inner.value.expr);
    made(Statement::Evaluate { value, at }, fault, alloc)
}

/// Checks a marker, and counts it.
pub fn check_marker(
    pragma: &Pragma,
    within: Within,
    table: &mut Table,
    alloc: Global,
) -> Result<CheckedStatement, AllocError>
    ensures { IfOk result (λ r. IsStatement r (Marker pragma.now) (within_said within) table.old table.new) }
{
    let number = MarkerId(table.markers());
    table.count_marker()?;
    let pragma = copy_pragma(pragma, alloc)?;
    made(Statement::Marker { number, pragma }, None, alloc)
}

/// Checks a `return`.
pub fn check_return(
    value: &Option<Source>,
    within: Within,
    at: u32,
    table: &Table,
    alloc: Global,
) -> Result<CheckedStatement, AllocError>
    ensures { IfOk result (λ r. IsStatement r (Return (map_option source_of value.now) at) (within_said within) table.now table.now) }
{
    let wrong = differ(has_value(value), !within.result.is_void());
    let inner = check_option_at(within.result, value, table, alloc)?;
    let own = own_fault(inner.void, false, wrong, at);
    let fault = first_of(own, inner.fault);
    let value = inner.value;
    made(Statement::Return { value, at }, fault, alloc)
}
