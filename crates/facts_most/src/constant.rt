// Tests that are constants (C11 6.6).
ghost use Rattle.std.specs.Prelude.{◌≡◌, Result, Option};
ghost use Rattle.facts_definitions.specs.Starts.{defined_word, is_always, is_always_or_absent, is_constant, is_nonzero, truth_of, with_word, word};
ghost use Rattle.c_tree.specs.Named.{map_option};
ghost use Rattle.types_tree.specs.View.{expr_of};

use types_tree::expression::Expr;
use types_value::Undefined;

/// Whether an expression is built of constants, casts and operators.
pub fn is_constant(expr: &Expr) -> bool
    ensures { result ≡ is_constant (expr_of expr.now) }
{
    match expr {
        Expr::Number { .. } => true,
        Expr::Character { .. } => true,
        Expr::Read(_) => false,
        Expr::Array { .. } => false,
        Expr::Paren { inner, .. } => is_constant(inner),
        Expr::Call { .. } => false,
        Expr::Step { .. } => false,
        Expr::Sign { operand, .. } => is_constant(operand),
        Expr::Cast { to, operand, .. } => {
            if to.is_void() {
                return false;
            }
            is_constant(operand)
        }
        Expr::Convert { operand, .. } => is_constant(operand),
        Expr::Operate { left, right, .. } => {
            if !is_constant(left) {
                return false;
            }
            is_constant(right)
        }
        Expr::And { left, right, .. } => {
            if !is_constant(left) {
                return false;
            }
            is_constant(right)
        }
        Expr::Or { left, right, .. } => {
            if !is_constant(left) {
                return false;
            }
            is_constant(right)
        }
        Expr::Comma { .. } => false,
        Expr::Conditional {
            test,
            then,
            otherwise,
            ..
        } => {
            if !is_constant(test) {
                return false;
            }
            if !is_constant(then) {
                return false;
            }
            is_constant(otherwise)
        }
        Expr::Assign { .. } => false,
        Expr::Update { .. } => false,
    }
}

fn defined_word(outcome: Result<u32, Undefined>) -> Option<u32>
    ensures { result ≡ defined_word outcome }
{
    match outcome {
        Ok(word) => Some(word),
        Err(_) => None,
    }
}

/// 1 for a word that isn't 0.
fn truth_of(word: Option<u32>) -> Option<u32>
    ensures { result ≡ with_word word truth_of }
{
    match word {
        None => None,
        Some(word) => Some(if word == 0 { 0 } else { 1 }),
    }
}

/// The word of a constant expression whose value is defined (C11 6.6).
pub fn word(expr: &Expr) -> Option<u32>
    ensures { result ≡ word (expr_of expr.now) }
{
    match expr {
        Expr::Number { constant, .. } => Some(constant.value),
        Expr::Character { value, .. } => Some(u32::from(*value)),
        Expr::Read(_) => None,
        Expr::Array { .. } => None,
        Expr::Paren { inner, .. } => word(inner),
        Expr::Call { .. } => None,
        Expr::Step { .. } => None,
        Expr::Sign {
            operator,
            kind,
            operand,
            ..
        } => match word(operand) {
            None => None,
            Some(x) => defined_word(operator.compute(*kind, x)),
        },
        Expr::Cast { to, operand, .. } => match word(operand) {
            None => None,
            Some(x) => Some(to.convert(x)),
        },
        Expr::Convert { to, operand } => match word(operand) {
            None => None,
            Some(x) => Some(to.convert(x)),
        },
        Expr::Operate {
            operator,
            kind,
            left,
            right,
            ..
        } => match word(left) {
            None => None,
            Some(x) => match word(right) {
                None => None,
                Some(y) => defined_word(operator.compute(*kind, x, y)),
            },
        },
        Expr::And { left, right, .. } => match word(left) {
            None => None,
            Some(0) => Some(0),
            Some(_) => truth_of(word(right)),
        },
        Expr::Or { left, right, .. } => match word(left) {
            None => None,
            Some(0) => truth_of(word(right)),
            Some(_) => Some(1),
        },
        Expr::Comma { .. } => None,
        Expr::Conditional {
            test,
            then,
            otherwise,
            ..
        } => match word(test) {
            None => None,
            Some(0) => word(otherwise),
            Some(_) => word(then),
        },
        Expr::Assign { .. } => None,
        Expr::Update { .. } => None,
    }
}

fn is_nonzero(word: Option<u32>) -> bool
    ensures { result ≡ is_nonzero word }
{
    match word {
        None => false,
        Some(word) => word != 0,
    }
}

/// Whether a test is a constant other than 0.
pub fn is_always(test: &Expr) -> bool
    ensures { result ≡ is_always (expr_of test.now) }
{
    if !is_constant(test) {
        return false;
    }
    is_nonzero(word(test))
}

/// The same of the test of a `for`, which is 1 where there is none.
pub fn is_always_or_absent(test: &Option<Expr>) -> bool
    ensures { result ≡ is_always_or_absent (map_option expr_of test.now) }
{
    match test {
        None => true,
        Some(test) => is_always(test),
    }
}
