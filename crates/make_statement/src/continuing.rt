// Statements that continue a loop, and the block that they leave.
ghost use Rattle.std.specs.Prelude.{◌≡◌, IfOk};
ghost use Rattle.types_tree.specs.View.{items_of, statement_of};
ghost use Rattle.plan_definition.specs.Statements.{continues, ends_in_block, items_continue, last_in_block, rounded};
ghost use Rattle.make_pieces.specs.View.{code_of};
ghost use Rattle.make_statement.specs.Planned.{item_continues};

use high_ir::statements::block;
use make_expression::is_joint;
use make_pieces::Code;
use std::alloc::Global;
use types_tree::statement::{Item, Statement};
use wcc_base::Memory;

/// Whether a statement has a `continue` of its own.
#[cycle(continuing)]
pub fn continues(statement: &Statement) -> bool
    ensures { result ≡ continues (statement_of statement.now) }
{
    match statement {
        Statement::Block { items, .. } => {
            let any = items_continue(items);
            any
        }
        Statement::Empty { .. } => false,
        Statement::Evaluate { .. } => false,
        Statement::Marker { .. } => false,
        Statement::If { then, .. } => continues(then),
        Statement::IfElse {
            then,
            otherwise,
            ..
        } => {
            if continues(then) {
                return true;
            }
            continues(otherwise)
        }
        Statement::While { .. } => false,
        Statement::Do { .. } => false,
        Statement::For { .. } => false,
        Statement::Switch { items, .. } => {
            let any = items_continue(items);
            any
        }
        Statement::Break { .. } => false,
        Statement::Continue { .. } => true,
        Statement::Return { .. } => false,
    }
}

#[cycle(continuing)]
fn item_continues(item: &Item) -> bool
    ensures { result ≡ item_continues item.now }
{
    match item {
        Item::Declaration(_) => false,
        Item::Statement(statement) => continues(statement),
        Item::Restriction(_) => false,
        Item::Label(_) => false,
    }
}

#[cycle(continuing)]
fn items_continue(items: &[Item]) -> bool
    ensures { result ≡ items_continue (items_of items.now) }
{
    for item in items {
        if item_continues(item) {
            return true;
        }
    }
    false
}

/// Whether only the last statement of its code leaves blocks, which is a block of its own.
pub fn ends_in_block(statement: &Statement) -> bool
    ensures { result ≡ ends_in_block (statement_of statement.now) }
{
    match statement {
        Statement::IfElse { test, .. } => is_joint(test),
        Statement::Switch { .. } => true,
        Statement::Block { .. } => false,
        Statement::Empty { .. } => false,
        Statement::Evaluate { .. } => false,
        Statement::Marker { .. } => false,
        Statement::If { .. } => false,
        Statement::While { .. } => false,
        Statement::Do { .. } => false,
        Statement::For { .. } => false,
        Statement::Break { .. } => false,
        Statement::Continue { .. } => false,
        Statement::Return { .. } => false,
    }
}

/// The code with its last statement in a block.
fn last_in_block(alloc: Global, code: Code) -> Result<Code, Memory>
    ensures { IfOk result (λ c. code_of c ≡ last_in_block (code_of code)) }
{
    let mut statements = code.statements;
    match statements.pop() {
        None => Ok(Code { statements }),
        Some(last) => match block(alloc, last) {
            Ok(last) => Code { statements }.then(last),
            Err(memory) => {
                Code { statements }.let_go();
                Err(memory)
            }
        },
    }
}

/// The code of a body, in a block that its continues leave.
pub fn rounded(
    alloc: Global,
    continues: bool,
    ends_in_block: bool,
    code: Code,
) -> Result<Code, Memory>
    ensures { IfOk result (λ c. code_of c ≡ rounded continues ends_in_block (code_of code)) }
{
    if !continues {
        return Ok(code);
    }
    if ends_in_block {
        return last_in_block(alloc, code);
    }
    code.in_block(alloc)
}
