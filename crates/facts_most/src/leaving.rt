// How often an entry of a loop starts.
ghost use Rattle.std.specs.Prelude.{◌≡◌, ◌≤◌};
ghost use Rattle.facts_definitions.specs.Starts.{items_leave, least_starts, leaves, most_starts, starts, starts_by};
ghost use Rattle.types_tree.specs.View.{items_of, statement_of};
ghost use Rattle.facts_most.specs.Items.{item_leaves};

use super::constant::{is_always, is_always_or_absent};
use facts_definitions::{Bounds, Starts};
use types_tree::statement::{Item, Statement};

/// Whether a statement may leave a loop: by a `return`, or by a `break` that is the loop's own.
#[cycle(leaving)]
pub fn leaves(own: bool, statement: &Statement) -> bool
    ensures { result ≡ leaves own (statement_of statement.now) }
{
    match statement {
        Statement::Block { items, .. } => {
            let left = items_leave(own, items);
            left
        }
        Statement::Empty { .. } => false,
        Statement::Evaluate { .. } => false,
        Statement::Marker { .. } => false,
        Statement::If { then, .. } => leaves(own, then),
        Statement::IfElse {
            then,
            otherwise,
            ..
        } => {
            if leaves(own, then) {
                return true;
            }
            leaves(own, otherwise)
        }
        Statement::While { body, .. } => leaves(false, body),
        Statement::Do { body, .. } => leaves(false, body),
        Statement::For { body, .. } => leaves(false, body),
        Statement::Switch { items, .. } => {
            let left = items_leave(false, items);
            left
        }
        Statement::Break { .. } => own,
        Statement::Continue { .. } => false,
        Statement::Return { .. } => true,
    }
}

#[cycle(leaving)]
fn item_leaves(own: bool, item: &Item) -> bool
    ensures { result ≡ item_leaves own item.now }
{
    match item {
        Item::Declaration(_) => false,
        Item::Statement(statement) => leaves(own, statement),
        Item::Restriction(_) => false,
        Item::Label(_) => false,
    }
}

#[cycle(leaving)]
fn items_leave(own: bool, items: &[Item]) -> bool
    ensures { result ≡ items_leave own (items_of items.now) }
{
    for item in items {
        if item_leaves(own, item) {
            return true;
        }
    }
    false
}

fn most_starts(always: bool, max: u32) -> u32
    requires { max ≤ 2147483647 }
    ensures { result ≡ most_starts always max }
{
    if always { max } else { max + 1 }
}

fn least_starts(always: bool, left: bool, min: u32) -> u32
    requires { min ≤ 2147483647 }
    ensures { result ≡ least_starts always left min }
{
    if always {
        return min.max(1);
    }
    if left {
        return min.max(1);
    }
    min + 1
}

fn starts_by(always: bool, left: bool, bounds: Bounds) -> Starts
    requires min { bounds.min ≤ 2147483647 }
    requires max { bounds.max ≤ 2147483647 }
    ensures { result ≡ starts_by always left bounds }
{
    Starts {
        least: least_starts(always, left, bounds.min),
        most: most_starts(always, bounds.max),
    }
}

/// From how many up to how many times each entry of a loop starts, whose body starts have these bounds.
pub fn starts(statement: &Statement, bounds: Bounds) -> Starts
    requires min { bounds.min ≤ 2147483647 }
    requires max { bounds.max ≤ 2147483647 }
    ensures { result ≡ starts (statement_of statement.now) bounds }
{
    match statement {
        Statement::While { test, body, .. } => {
            starts_by(is_always(test), leaves(true, body), bounds)
        }
        Statement::Do { body, .. } => starts_by(true, leaves(true, body), bounds),
        Statement::For { test, body, .. } => {
            starts_by(is_always_or_absent(test), leaves(true, body), bounds)
        }
        Statement::Block { .. }
        | Statement::Empty { .. }
        | Statement::Evaluate { .. }
        | Statement::Marker { .. }
        | Statement::If { .. }
        | Statement::IfElse { .. }
        | Statement::Switch { .. }
        | Statement::Break { .. }
        | Statement::Continue { .. }
        | Statement::Return { .. } => Starts {
            least: bounds.min,
            most: bounds.max,
        },
    }
}
