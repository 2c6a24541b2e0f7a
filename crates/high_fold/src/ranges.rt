// What the form of an expression tells of its values.
ghost use Rattle.std.specs.Prelude.{◌≡◌};
ghost use Rattle.high_ir.specs.View.{expr_of};
ghost use Rattle.high_folded.specs.Ranges.{below, bits, fits, gives_left, gives_right, is_divisor, is_divisor_within, is_idle, is_lost, is_mask, is_narrow, is_within, is_word, most, operator_fits, unary_fits, unary_is_word};

use super::operators::{is_commutative, is_neutral, is_word_neutral, operator_is_word};
use high_ir::expression::{BinaryOperator, Expr, UnaryOperator};
use high_ir::object::Kind;

/// The greatest number without a sign that a kind keeps.
fn most(kind: Kind) -> u32
    ensures { result ≡ most kind }
{
    match kind {
        Kind::Unsigned8 => 255,
        Kind::Signed8 => 127,
        Kind::Unsigned16 => 65535,
        Kind::Signed16 => 32767,
        Kind::Word => 4_294_967_295,
    }
}

/// How many numbers with a sign it keeps.
fn below(kind: Kind) -> u32
    ensures { result ≡ below kind }
{
    match kind {
        Kind::Unsigned8 => 0,
        Kind::Signed8 => 128,
        Kind::Unsigned16 => 0,
        Kind::Signed16 => 32768,
        Kind::Word => 4_294_967_295,
    }
}

/// Whether the second kind keeps what the first one keeps.
fn is_within(narrow: Kind, wide: Kind) -> bool
    ensures { result ≡ is_within narrow wide }
{
    most(narrow) <= most(wide) && below(narrow) <= below(wide)
}

fn bits(kind: Kind) -> u32
    ensures { result ≡ bits kind }
{
    match kind {
        Kind::Unsigned8 => 8,
        Kind::Signed8 => 8,
        Kind::Unsigned16 => 16,
        Kind::Signed16 => 16,
        Kind::Word => 32,
    }
}

/// Whether a constant masks all but what a kind keeps.
fn is_mask(kind: Kind, expr: &Expr) -> bool
    ensures { result ≡ is_mask kind (expr_of expr.now) }
{
    match expr {
        Expr::Constant(word) => *word <= most(kind),
        Expr::Variable(_) => false,
        Expr::Element { .. } => false,
        Expr::Unary { .. } => false,
        Expr::Binary { .. } => false,
    }
}

fn is_divisor_within(kind: Kind, word: u32) -> bool
    ensures { result ≡ is_divisor_within kind word }
{
    0 < word && word - 1 <= most(kind)
}

/// Whether a kind keeps the remainders by a constant.
fn is_divisor(kind: Kind, expr: &Expr) -> bool
    ensures { result ≡ is_divisor kind (expr_of expr.now) }
{
    match expr {
        Expr::Constant(word) => is_divisor_within(kind, *word),
        Expr::Variable(_) => false,
        Expr::Element { .. } => false,
        Expr::Unary { .. } => false,
        Expr::Binary { .. } => false,
    }
}

/// Whether a kind keeps each value of an operator between these operands.
fn operator_fits(kind: Kind, operator: BinaryOperator, left: &Expr, right: &Expr) -> bool
    ensures { result ≡ operator_fits kind operator (expr_of left.now) (expr_of right.now) }
{
    match operator {
        BinaryOperator::Add => false,
        BinaryOperator::Subtract => false,
        BinaryOperator::Multiply => false,
        BinaryOperator::Divide => false,
        BinaryOperator::DivideUnsigned => false,
        BinaryOperator::Remainder => false,
        BinaryOperator::RemainderUnsigned => is_divisor(kind, right),
        BinaryOperator::And => is_mask(kind, left) || is_mask(kind, right),
        BinaryOperator::Or => false,
        BinaryOperator::Xor => false,
        BinaryOperator::ShiftLeft => false,
        BinaryOperator::ShiftRight => false,
        BinaryOperator::ShiftRightUnsigned => false,
        BinaryOperator::Equal => true,
        BinaryOperator::NotEqual => true,
        BinaryOperator::Less => true,
        BinaryOperator::LessUnsigned => true,
        BinaryOperator::AtLeast => true,
        BinaryOperator::AtLeastUnsigned => true,
    }
}

fn unary_fits(kind: Kind, operator: UnaryOperator) -> bool
    ensures { result ≡ unary_fits kind operator }
{
    match operator {
        UnaryOperator::Convert(narrow) => is_within(narrow, kind),
        UnaryOperator::IsZero => true,
        UnaryOperator::Negate => false,
        UnaryOperator::Complement => false,
    }
}

/// Whether a kind keeps each value of an expression as it is.
fn fits(kind: Kind, expr: &Expr) -> bool
    ensures { result ≡ fits kind (expr_of expr.now) }
{
    match expr {
        Expr::Constant(_) => false,
        Expr::Variable(_) => false,
        Expr::Element { array, .. } => is_within(array.kind, kind),
        Expr::Unary { operator, .. } => unary_fits(kind, *operator),
        Expr::Binary {
            operator,
            left,
            right,
        } => operator_fits(kind, *operator, left, right),
    }
}

/// Whether an operator gives back its operand.
pub fn is_idle(operator: UnaryOperator, operand: &Expr) -> bool
    ensures { result ≡ is_idle operator (expr_of operand.now) }
{
    match operator {
        UnaryOperator::Convert(kind) => fits(kind, operand),
        UnaryOperator::IsZero => false,
        UnaryOperator::Negate => false,
        UnaryOperator::Complement => false,
    }
}

fn is_narrow(kind: Kind) -> bool
    ensures { result ≡ is_narrow kind }
{
    most(kind) <= 65535
}

fn unary_is_word(operator: UnaryOperator) -> bool
    ensures { result ≡ unary_is_word operator }
{
    match operator {
        UnaryOperator::Convert(kind) => is_narrow(kind),
        UnaryOperator::IsZero => true,
        UnaryOperator::Negate => true,
        UnaryOperator::Complement => false,
    }
}

/// Whether each value of an expression is a word, by its form.
fn is_word(expr: &Expr) -> bool
    ensures { result ≡ is_word (expr_of expr.now) }
{
    match expr {
        Expr::Constant(_) => false,
        Expr::Variable(_) => false,
        Expr::Element { array, .. } => is_narrow(array.kind),
        Expr::Unary { operator, .. } => unary_is_word(*operator),
        Expr::Binary { operator, .. } => operator_is_word(*operator),
    }
}

/// Whether an operator gives back its left side, where its right side is this constant.
pub fn gives_left(operator: BinaryOperator, left: &Expr, word: u32) -> bool
    ensures { result ≡ gives_left operator (expr_of left.now) word }
{
    if is_neutral(operator, word) {
        return true;
    }
    is_word(left) && is_word_neutral(operator, word)
}

/// Whether it gives back its right side, where its left side is this constant.
pub fn gives_right(operator: BinaryOperator, word: u32, right: &Expr) -> bool
    ensures { result ≡ gives_right operator word (expr_of right.now) }
{
    is_commutative(operator) && gives_left(operator, right, word)
}

/// Whether a store into elements of a kind loses what an operator does.
pub fn is_lost(kind: Kind, operator: UnaryOperator) -> bool
    ensures { result ≡ is_lost kind operator }
{
    match operator {
        UnaryOperator::Convert(wide) => bits(kind) <= bits(wide),
        UnaryOperator::IsZero => false,
        UnaryOperator::Negate => false,
        UnaryOperator::Complement => false,
    }
}
