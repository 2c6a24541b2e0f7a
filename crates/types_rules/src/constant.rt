ghost use Rattle.std.specs.Prelude.{◌≡◌, ◌==◌, Some, if◌then◌else◌};
ghost use Rattle.c_tree.specs.View.{expr_of};
ghost use Rattle.types_value.specs.Kinds.{converted, promoted};
ghost use Rattle.types_value.specs.Operators.{computed, signed_by};
ghost use Rattle.types_rules.specs.Constants.{binary_constant, cast_constant, chosen_constant, constant, constant_word, defined_word, folded, operated_constant, signed_constant, truth_of, with_word};
ghost use Rattle.types_rules.specs.Operations.{left_kind, right_kind};

use super::operations::{
    constant_kind, left_kind, operator_of, right_kind, sign_kind, sign_of, value_kind,
};
use super::specifiers::kind_spelled;
use c_tree::expression::{BinaryOperator, Expr};
use types_value::{Kind, Operator, Sign, Undefined};

/// A constant: its type, and its word where its value is defined.
#[derive(Clone, Copy)]
pub struct Folded {
    pub kind: Kind,
    pub word: Option<u32>,
}

impl Folded {
    fn new(kind: Kind, word: Option<u32>) -> Folded
        ensures { result ≡ constant kind word }
    {
        Folded { kind, word }
    }
}

fn defined_word(outcome: Result<u32, Undefined>) -> Option<u32>
    ensures { result ≡ defined_word outcome }
{
    match outcome {
        Ok(word) => Some(word),
        Err(_) => None,
    }
}

/// 1 for a word that isn't 0.
fn truth(word: u32) -> Option<u32>
    ensures { result ≡ truth_of word }
{
    Some(if word == 0 { 0 } else { 1 })
}

fn truth_of_word(word: Option<u32>) -> Option<u32>
    ensures { result ≡ with_word word truth_of }
{
    match word {
        None => None,
        Some(word) => truth(word),
    }
}

fn signed_word(sign: Sign, operand: Folded) -> Option<u32>
    ensures { result ≡ with_word operand.word (λ x. defined_word (signed_by sign (promoted operand.kind) (converted (promoted operand.kind) x))) }
{
    let kind = operand.kind.promoted();
    match operand.word {
        None => None,
        Some(word) => defined_word(sign.compute(kind, kind.convert(word))),
    }
}

fn signed(sign: Option<Sign>, operand: Folded) -> Option<Folded>
    ensures { result ≡ signed_constant sign operand }
{
    match sign {
        None => None,
        Some(sign) => Some(Folded::new(sign_kind(sign, operand.kind), signed_word(sign, operand))),
    }
}

fn operated_word(operator: Operator, left: Folded, right: Folded) -> Option<u32>
    ensures { result ≡ with_word left.word (λ x. with_word right.word (λ y. defined_word (computed operator (left_kind operator left.kind right.kind)
        (converted (left_kind operator left.kind right.kind) x) (converted (right_kind operator left.kind right.kind) y)))) }
{
    let kind = left_kind(operator, left.kind, right.kind);
    let other = right_kind(operator, left.kind, right.kind);
    match left.word {
        None => None,
        Some(x) => match right.word {
            None => None,
            Some(y) => defined_word(operator.compute(kind, kind.convert(x), other.convert(y))),
        },
    }
}

fn operated(operator: Option<Operator>, left: Folded, right: Folded) -> Option<Folded>
    ensures { result ≡ operated_constant operator left right }
{
    match operator {
        None => None,
        Some(operator) => Some(Folded::new(
            value_kind(operator, left.kind, right.kind),
            operated_word(operator, left, right),
        )),
    }
}

fn and_word(left: Option<u32>, right: Option<u32>) -> Option<u32>
    ensures { result ≡ with_word left (λ x. if x == 0 then Some 0 else with_word right truth_of) }
{
    match left {
        None => None,
        Some(x) => {
            if x == 0 {
                return Some(0);
            }
            truth_of_word(right)
        }
    }
}

fn or_word(left: Option<u32>, right: Option<u32>) -> Option<u32>
    ensures { result ≡ with_word left (λ x. if x == 0 then with_word right truth_of else Some 1) }
{
    match left {
        None => None,
        Some(x) => {
            if x == 0 {
                return truth_of_word(right);
            }
            Some(1)
        }
    }
}

fn binary(operator: BinaryOperator, left: Folded, right: Folded) -> Option<Folded>
    ensures { result ≡ binary_constant operator left right }
{
    match operator {
        BinaryOperator::And => Some(Folded::new(Kind::Int, and_word(left.word, right.word))),
        BinaryOperator::Or => Some(Folded::new(Kind::Int, or_word(left.word, right.word))),
        other => operated(operator_of(other), left, right),
    }
}

fn converted_word(kind: Kind, word: Option<u32>) -> Option<u32>
    ensures { result ≡ with_word word (λ x. Some (converted kind x)) }
{
    match word {
        None => None,
        Some(word) => Some(kind.convert(word)),
    }
}

fn chosen_word(
    kind: Kind,
    test: Option<u32>,
    first: Option<u32>,
    second: Option<u32>,
) -> Option<u32>
    ensures { result ≡ with_word test (λ x. with_word (if x == 0 then second else first) (λ y. Some (converted kind y))) }
{
    match test {
        None => None,
        Some(x) => {
            if x == 0 {
                return converted_word(kind, second);
            }
            converted_word(kind, first)
        }
    }
}

fn chosen(test: Folded, first: Folded, second: Folded) -> Option<Folded>
    ensures { result ≡ chosen_constant test first second }
{
    let kind = first.kind.common(second.kind);
    Some(Folded::new(kind, chosen_word(kind, test.word, first.word, second.word)))
}

fn cast(kind: Kind, operand: Folded) -> Option<Folded>
    ensures { result ≡ cast_constant kind operand }
{
    if kind.is_void() {
        return None;
    }
    Some(Folded::new(kind, converted_word(kind, operand.word)))
}

/// The constant that an expression is, if it has the form of one.
pub fn fold(expr: &Expr) -> Option<Folded>
    ensures { result ≡ folded (expr_of expr.now) }
{
    match expr {
        Expr::Number { constant, .. } => Some(Folded::new(
            constant_kind(constant.scalar),
            Some(constant.value),
        )),
        Expr::Character { value, .. } => Some(Folded::new(Kind::Int, Some(u32::from(*value)))),
        Expr::Paren { inner, .. } => fold(inner),
        Expr::Prefix {
            operator,
            operand,
            ..
        } => signed(sign_of(*operator), fold(operand)?),
        Expr::Cast {
            specifiers,
            operand,
            ..
        } => cast(kind_spelled(specifiers), fold(operand)?),
        Expr::Binary {
            operator,
            left,
            right,
            ..
        } => {
            let first = fold(left)?;
            let second = fold(right)?;
            binary(*operator, first, second)
        }
        Expr::Conditional {
            test,
            then,
            otherwise,
            ..
        } => {
            let test = fold(test)?;
            let first = fold(then)?;
            let second = fold(otherwise)?;
            chosen(test, first, second)
        }
        _ => None,
    }
}

/// The word of a constant expression that has a defined value.
pub fn constant_word(expr: &Expr) -> Option<u32>
    ensures { result ≡ constant_word (expr_of expr.now) }
{
    match fold(expr) {
        None => None,
        Some(folded) => folded.word,
    }
}
