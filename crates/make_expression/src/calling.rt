// Calls.
ghost use Rattle.std.specs.Prelude.{◌≡◌, IfOk};
ghost use Rattle.make_expression.specs.Makes.{passing_of};
ghost use Rattle.make_pieces.specs.View.{code_of, valued_of};
ghost use Rattle.types_tree.specs.declared.expression.Callee.TheVariants.{Function as Own};
ghost use Rattle.high_code.specs.Code.{alone, joined};
ghost use Rattle.high_ir.specs.Tree.{Get, Variable};
ghost use Rattle.plan_definition.specs.declared.purpose.Purpose.TheVariants.{Value, Effect};
ghost use Rattle.plan_definition.specs.Values.{called, first_value, put};

use super::passing::{Passing, first_value};
use high_ir::expression::Expr;
use high_ir::statement::Statement;
use make_pieces::operators::convert;
use make_pieces::{Code, Steady, Valued};
use plan_definition::Purpose;
use std::alloc::Global;
use types_tree::expression::{Callee, FunctionId};
use types_value::Kind;
use wcc_base::Memory;

/// A byte that is written; its value is that of the byte.
fn put_again(alloc: Global, k: u32, byte: Valued) -> Result<Valued, Memory>
    ensures { IfOk result (λ v. valued_of v ≡ put Value k (valued_of byte)) }
{
    let Steady { code, value } = byte.leaf(k)?;
    let code = code.then(Statement::Put {
        value: value.expr(),
    })?;
    match convert(alloc, Kind::Char, value.expr()) {
        Ok(value) => Ok(Valued { code, value }),
        Err(memory) => {
            code.let_go();
            Err(memory)
        }
    }
}

fn put_only(byte: Valued) -> Result<Code, Memory>
    ensures { IfOk result (λ c. code_of c ≡ (put Effect 0 (valued_of byte)).code) }
{
    let Valued { code, value } = byte;
    code.then(Statement::Put { value })
}

/// A byte that is written.
fn put(alloc: Global, purpose: Purpose, k: u32, byte: Valued) -> Result<Valued, Memory>
    ensures { IfOk result (λ v. valued_of v ≡ put purpose k (valued_of byte)) }
{
    match purpose {
        Purpose::Effect => Ok(Valued::only_code(put_only(byte)?)),
        Purpose::Value => put_again(alloc, k, byte),
        Purpose::Unless { .. } => put_again(alloc, k, byte),
        Purpose::When { .. } => put_again(alloc, k, byte),
    }
}

fn get(code: Code, k: u32) -> Result<Valued, Memory>
    ensures { IfOk result (λ v. valued_of v ≡ record { code = joined (code_of code) (alone (Get k)); value = Variable k }) }
{
    Ok(Valued {
        code: code.then(Statement::Get { into: k })?,
        value: Expr::Variable(k),
    })
}

fn call_only(function: FunctionId, passing: Passing) -> Result<Valued, Memory>
    ensures { IfOk result (λ v. valued_of v ≡ called Effect (Own function) 0 (passing_of passing)) }
{
    let Passing {
        code,
        values,
        arrays,
    } = passing;
    let code = code.then(Statement::Call {
        function: function.0,
        values,
        arrays,
        into: None,
    })?;
    Ok(Valued::only_code(code))
}

fn call_again(function: FunctionId, k: u32, passing: Passing) -> Result<Valued, Memory>
    ensures { IfOk result (λ v. valued_of v ≡ called Value (Own function) k (passing_of passing)) }
{
    let Passing {
        code,
        values,
        arrays,
    } = passing;
    let code = code.then(Statement::Call {
        function: function.0,
        values,
        arrays,
        into: Some(k),
    })?;
    Ok(Valued {
        code,
        value: Expr::Variable(k),
    })
}

fn call(purpose: Purpose, function: FunctionId, k: u32, passing: Passing) -> Result<Valued, Memory>
    ensures { IfOk result (λ v. valued_of v ≡ called purpose (Own function) k (passing_of passing)) }
{
    match purpose {
        Purpose::Effect => call_only(function, passing),
        Purpose::Value => call_again(function, k, passing),
        Purpose::Unless { .. } => call_again(function, k, passing),
        Purpose::When { .. } => call_again(function, k, passing),
    }
}

/// The byte that is passed to `putchar`.
fn byte_of(passing: Passing) -> Valued
    ensures { valued_of result ≡ record { code = (passing_of passing).code; value = first_value (passing_of passing).values } }
{
    let Passing {
        code,
        values,
        arrays,
    } = passing;
    drop(arrays);
    Valued {
        code,
        value: first_value(values),
    }
}

/// The code that arguments leave.
fn code_left(passing: Passing) -> Code
    ensures { code_of result ≡ (passing_of passing).code }
{
    let Passing {
        code,
        values,
        arrays,
    } = passing;
    drop(values);
    drop(arrays);
    code
}

/// A call, once its arguments are made.
pub fn called(
    alloc: Global,
    purpose: Purpose,
    callee: Callee,
    k: u32,
    passing: Passing,
) -> Result<Valued, Memory>
    ensures { IfOk result (λ v. valued_of v ≡ called purpose callee k (passing_of passing)) }
{
    match callee {
        Callee::Getchar => get(code_left(passing), k),
        Callee::Putchar => put(alloc, purpose, k, byte_of(passing)),
        Callee::Function(function) => call(purpose, function, k, passing),
    }
}
