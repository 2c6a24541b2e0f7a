// Assignments.
ghost use Rattle.std.specs.Prelude.{◌≡◌, IfOk};
ghost use Rattle.make_expression.specs.Makes.{Makes, from_next, updated_word};
ghost use Rattle.make_pieces.specs.View.{aimed_of, code_of, leaf_expr, steady_of, valued_of};
ghost use Rattle.high_ir.specs.Tree.{Element, Variable};
ghost use Rattle.high_ir.specs.View.{expr_of};
ghost use Rattle.plan_definition.specs.declared.purpose.Purpose.TheVariants.{Value, Effect};
ghost use Rattle.plan_definition.specs.Homes as homes;
ghost use Rattle.plan_definition.specs.Operators.{convert};
ghost use Rattle.plan_definition.specs.Values.{assigned, changed_in, kept_in, set_to, updated};

use super::operating::new_value;
use high_ir::expression::Expr;
use high_ir::expressions::{element, let_go_expr};
use high_ir::object::Array;
use high_ir::statement::Statement;
use make_pieces::expr::Leaf;
use make_pieces::numbers::sum;
use make_pieces::operators::convert;
use make_pieces::{Aimed, Code, Steady, Target, Valued};
use plan_definition::Purpose;
use std::alloc::Global;
use types_value::{Kind, Operator};
use wcc_base::Memory;

/// A value that is stored in a variable.
pub fn set_to(x: u32, code: Code, right: Valued) -> Result<Valued, Memory>
    ensures { IfOk result (λ v. valued_of v ≡ set_to x (code_of code) (valued_of right)) }
{
    match right.placed(x) {
        Ok(right) => Ok(Valued {
            code: code.joined(right)?,
            value: Expr::Variable(x),
        }),
        Err(memory) => {
            code.let_go();
            Err(memory)
        }
    }
}

/// An array with an element that is assigned, and the first temporary that is free for this.
#[derive(Clone, Copy)]
struct Slot {
    array: Array,
    free: u32,
}

/// A constant or a variable that is stored in an element.
fn kept_leaf(slot: Slot, index: Valued, right: Steady) -> Result<Valued, Memory>
    ensures { IfOk result (λ v. valued_of v ≡ kept_in slot.array slot.free (valued_of index) (steady_of right)) }
{
    let Steady { code, value } = right;
    let Valued { code, value: index } = index.kept(slot.free, code)?;
    let code = code.then(Statement::Keep {
        array: slot.array,
        index,
        value: value.expr(),
    })?;
    Ok(Valued {
        code,
        value: value.expr(),
    })
}

/// A value that is stored in an element, and not used again.
fn kept_only(slot: Slot, index: Valued, right: Valued) -> Result<Code, Memory>
    ensures { IfOk result (λ c. code_of c ≡ (kept_in slot.array slot.free (valued_of index) (valued_of right)).code) }
{
    let Valued { code, value } = right;
    match index.kept(slot.free, code) {
        Ok(Valued { code, value: index }) => code.then(Statement::Keep {
            array: slot.array,
            index,
            value,
        }),
        Err(memory) => {
            let_go_expr(value);
            Err(memory)
        }
    }
}

/// A value that is stored in an element, and used again.
fn kept_again(slot: Slot, index: Valued, right: Valued) -> Result<Valued, Memory>
    ensures { IfOk result (λ v. valued_of v ≡ assigned Value slot.free (homes.InMemory slot.array (expr_of index.value)) (code_of index.code) (valued_of right)) }
{
    match sum(slot.free, 1) {
        Ok(next) => match right.leaf(next) {
            Ok(right) => kept_leaf(slot, index, right),
            Err(memory) => {
                index.let_go();
                Err(memory)
            }
        },
        Err(memory) => {
            index.let_go();
            right.let_go();
            Err(memory)
        }
    }
}

fn kept_in(purpose: Purpose, slot: Slot, index: Valued, right: Valued) -> Result<Valued, Memory>
    ensures { IfOk result (λ v. Makes purpose v (assigned purpose slot.free (homes.InMemory slot.array (expr_of index.value)) (code_of index.code) (valued_of right))) }
{
    match purpose {
        Purpose::Effect => Ok(Valued::only_code(kept_only(slot, index, right)?)),
        Purpose::Value => kept_again(slot, index, right),
        Purpose::Unless { .. } => kept_again(slot, index, right),
        Purpose::When { .. } => kept_again(slot, index, right),
    }
}

/// An assignment of a value to a target.
pub fn assigned(purpose: Purpose, k: u32, aimed: Aimed, right: Valued) -> Result<Valued, Memory>
    ensures { IfOk result (λ v. Makes purpose v (assigned purpose k (aimed_of aimed).target (aimed_of aimed).code (valued_of right))) }
{
    let Aimed { code, target } = aimed;
    match target {
        Target::InFrame(x) => set_to(x, code, right),
        Target::InMemory { array, index } => {
            let slot = Slot { array, free: k };
            kept_in(purpose, slot, Valued { code, value: index }, right)
        }
    }
}

/// How a new value is computed from an old one.
#[derive(Clone, Copy)]
pub struct Change {
    pub operator: Operator,
    /// The type at which it is computed.
    pub kind: Kind,
    /// The type of what is assigned.
    pub to: Kind,
}

/// An element with a new value, which isn't used again.
fn changed_only(
    alloc: Global,
    change: Change,
    array: Array,
    index: Steady,
    right: Expr,
) -> Result<Code, Memory>
    ensures { IfOk result (λ c. code_of c ≡ (changed_in Effect array 0 (steady_of index) (updated_word change (expr_of right)) (convert change.to)).code) }
{
    let Steady { code, value: index } = index;
    match changed_element(alloc, change, array, index, right) {
        Ok(value) => code.then(Statement::Keep {
            array,
            index: index.expr(),
            value,
        }),
        Err(memory) => {
            code.let_go();
            Err(memory)
        }
    }
}

/// The new value of an element.
fn changed_element(
    alloc: Global,
    change: Change,
    array: Array,
    index: Leaf,
    right: Expr,
) -> Result<Expr, Memory>
    ensures { IfOk result (λ e. expr_of e ≡ updated_word change (expr_of right) (Element array (leaf_expr index))) }
{
    match element(alloc, array, index.expr()) {
        Ok(old) => new_value(alloc, change.operator, change.kind, old, right),
        Err(memory) => {
            let_go_expr(right);
            Err(memory)
        }
    }
}

/// The new value of an element, converted to its type.
fn converted_element(
    alloc: Global,
    change: Change,
    array: Array,
    index: Leaf,
    right: Expr,
) -> Result<Expr, Memory>
    ensures { IfOk result (λ e. expr_of e ≡ convert change.to (updated_word change (expr_of right) (Element array (leaf_expr index)))) }
{
    convert(
        alloc,
        change.to,
        changed_element(alloc, change, array, index, right)?,
    )
}

/// An element with a new value, which is used again from the temporary behind the first free one.
fn changed_again(
    alloc: Global,
    change: Change,
    slot: Slot,
    index: Steady,
    right: Expr,
) -> Result<Valued, Memory>
    ensures { IfOk result (λ v. valued_of v ≡ changed_in Value slot.array slot.free (steady_of index) (updated_word change (expr_of right)) (convert change.to)) }
{
    let Steady { code, value: index } = index;
    match converted_element(alloc, change, slot.array, index, right) {
        Ok(value) => kept_from_next(code, slot, index, value),
        Err(memory) => {
            code.let_go();
            Err(memory)
        }
    }
}

/// A value that is stored from the temporary behind the first free one.
fn kept_from_next(code: Code, slot: Slot, index: Leaf, value: Expr) -> Result<Valued, Memory>
    ensures { IfOk result (λ v. valued_of v ≡ from_next (code_of code) slot.array slot.free (leaf_expr index) (expr_of value)) }
{
    match sum(slot.free, 1) {
        Ok(next) => Ok(Valued {
            code: code.then_both(
                Statement::Set {
                    variable: next,
                    value,
                },
                Statement::Keep {
                    array: slot.array,
                    index: index.expr(),
                    value: Expr::Variable(next),
                },
            )?,
            value: Expr::Variable(next),
        }),
        Err(memory) => {
            code.let_go();
            let_go_expr(value);
            Err(memory)
        }
    }
}

/// An element with a new value.
fn changed_in(
    alloc: Global,
    purpose: Purpose,
    change: Change,
    slot: Slot,
    index: Steady,
    right: Expr,
) -> Result<Valued, Memory>
    ensures { IfOk result (λ v. valued_of v ≡ changed_in purpose slot.array slot.free (steady_of index) (updated_word change (expr_of right)) (convert change.to)) }
{
    match purpose {
        Purpose::Effect => Ok(Valued::only_code(changed_only(
            alloc, change, slot.array, index, right,
        )?)),
        Purpose::Value => changed_again(alloc, change, slot, index, right),
        Purpose::Unless { .. } => changed_again(alloc, change, slot, index, right),
        Purpose::When { .. } => changed_again(alloc, change, slot, index, right),
    }
}

/// The new value of a variable, converted to its type.
fn converted_variable(alloc: Global, change: Change, x: u32, right: Expr) -> Result<Expr, Memory>
    ensures { IfOk result (λ e. expr_of e ≡ convert change.to (updated_word change (expr_of right) (Variable x))) }
{
    let value = new_value(
        alloc,
        change.operator,
        change.kind,
        Expr::Variable(x),
        right,
    )?;
    convert(alloc, change.to, value)
}

/// A variable with a new value.
fn updated_variable(
    alloc: Global,
    change: Change,
    x: u32,
    code: Code,
    right: Valued,
) -> Result<Valued, Memory>
    ensures { IfOk result (λ v. valued_of v ≡ updated Value change.operator change.kind change.to 0 (homes.InFrame x) (code_of code) (valued_of right)) }
{
    let Valued {
        code: before,
        value,
    } = right;
    match converted_variable(alloc, change, x, value) {
        Ok(value) => set_to(
            x,
            code,
            Valued {
                code: before,
                value,
            },
        ),
        Err(memory) => {
            code.let_go();
            before.let_go();
            Err(memory)
        }
    }
}

/// An element with a new value, whose index is made before the operand.
fn updated_element(
    alloc: Global,
    purpose: Purpose,
    change: Change,
    slot: Slot,
    index: Valued,
    right: Valued,
) -> Result<Valued, Memory>
    ensures { IfOk result (λ v. valued_of v ≡ updated purpose change.operator change.kind change.to slot.free (homes.InMemory slot.array (expr_of index.value)) (code_of index.code) (valued_of right)) }
{
    let Valued { code, value: right } = right;
    match index.firm(slot.free, code) {
        Ok(index) => changed_in(alloc, purpose, change, slot, index, right),
        Err(memory) => {
            let_go_expr(right);
            Err(memory)
        }
    }
}

/// A compound assignment to a target.
pub fn updated(
    alloc: Global,
    purpose: Purpose,
    change: Change,
    k: u32,
    aimed: Aimed,
    right: Valued,
) -> Result<Valued, Memory>
    ensures { IfOk result (λ v. valued_of v ≡ updated purpose change.operator change.kind change.to k (aimed_of aimed).target (aimed_of aimed).code (valued_of right)) }
{
    let Aimed { code, target } = aimed;
    match target {
        Target::InFrame(x) => updated_variable(alloc, change, x, code, right),
        Target::InMemory { array, index } => {
            let slot = Slot { array, free: k };
            let index = Valued { code, value: index };
            updated_element(alloc, purpose, change, slot, index, right)
        }
    }
}
