// What operators become.
ghost use Rattle.std.specs.Prelude.{◌≡◌, ◌<◌, ◌≤◌, IfOk, IfSome};
ghost use Rattle.low_ir.specs.Code.{Constant, Register};
ghost use Rattle.rv_core.specs.declared.row.Alu.TheVariants as alu;
ghost use Rattle.low_ir.specs.View.{instr_of, operand_of};
ghost use Rattle.lower_coder.specs.View.{few_code, few_needs, coded_of, more};
ghost use Rattle.lower_definition.specs.Operators.{binary_code, binary_needs, by_bias, by_shifts, condition_of, convert_code, convert_needs, difference, divided, divisor_exponent, exponent_below, exponent_of, in_order, inverse, masked, negated, operate, product, quotient, quotient_unsigned, remainder_unsigned, shifted, unary_code, unary_needs};

use super::coder::{Coder, Few};
use high_ir::expression::{BinaryOperator, UnaryOperator};
use high_ir::object::Kind;
use low_ir::{Instr, Operand};
use rv_core::{Alu, Condition};
use wcc_base::Memory;

/// An instruction that computes.
pub fn operate(operator: Alu, into: u32, left: Operand, right: Operand) -> Instr
    ensures { instr_of result ≡ operate operator into (operand_of left) (operand_of right) }
{
    Instr::Operate {
        operator,
        into,
        left,
        right,
    }
}

/// The two's complement of a word.
pub fn negated(word: u32) -> u32
    ensures { result ≡ negated word }
{
    0u32.wrapping_sub(word)
}

/// The exponent of a power of two that is below a bound.
fn exponent_below(bound: u32, word: u32) -> Option<u32>
    requires { bound ≤ 32 }
    ensures { result ≡ exponent_below bound word }
{
    if bound == 0 {
        return None;
    }
    let n = bound - 1;
    if 1 << n == word {
        return Some(n);
    }
    exponent_below(n, word)
}

/// The exponent of a power of two.
#[tactic(auto, unfolding(lower_definition::specs::Operators::exponent_of))]
fn exponent_of(word: u32) -> Option<u32>
    ensures { result ≡ exponent_of word }
{
    exponent_below(32, word)
}

/// The exponent of a divisor with a sign that is a power of two above 1.
#[tactic(auto, unfolding(lower_definition::specs::Operators::divisor_exponent))]
fn divisor_exponent(word: u32) -> Option<u32>
    ensures value { result ≡ divisor_exponent word }
    ensures small { IfSome result (λ k. k < 32) }
{
    match exponent_below(31, word) {
        None => None,
        Some(exponent) => {
            if exponent == 0 {
                return None;
            }
            Some(exponent)
        }
    }
}

/// A quotient that is rounded towards zero, by a power of two.
fn by_bias(exponent: u32, into: u32, free: u32, left: Operand) -> Few
    requires { exponent ≤ 32 }
    ensures code { few_code result ≡ by_bias exponent into free (operand_of left) }
    ensures needs { few_needs result ≡ 1 }
{
    let by = Operand::Register(free);
    Few::Four(
        operate(Alu::ShiftRightSigned, free, left, Operand::Constant(31)),
        operate(Alu::ShiftRight, free, by, Operand::Constant(32 - exponent)),
        operate(Alu::Sum, free, left, by),
        operate(Alu::ShiftRightSigned, into, by, Operand::Constant(exponent)),
    )
}

fn divided(into: u32, free: u32, left: Operand, word: u32) -> Few
    ensures code { few_code result ≡ divided into free (operand_of left) word (divisor_exponent word) }
    ensures needs { few_needs result ≡ 1 }
{
    match divisor_exponent(word) {
        None => Few::Lone(operate(Alu::Quotient, into, left, Operand::Constant(word))),
        Some(exponent) => by_bias(exponent, into, free, left),
    }
}

fn quotient(shifts: bool, into: u32, free: u32, left: Operand, right: Operand) -> Few
    ensures code { few_code result ≡ quotient shifts into free (operand_of left) (operand_of right) }
    ensures needs { few_needs result ≡ 1 }
{
    if !shifts {
        return Few::Lone(operate(Alu::Quotient, into, left, right));
    }
    match right {
        Operand::Register(_) => Few::Lone(operate(Alu::Quotient, into, left, right)),
        Operand::Constant(word) => divided(into, free, left, word),
    }
}

/// An operator that takes its operands in any order: a constant stands to the right.
fn in_order(operator: Alu, into: u32, left: Operand, right: Operand) -> Instr
    ensures { instr_of result ≡ in_order operator into (operand_of left) (operand_of right) }
{
    match left {
        Operand::Register(_) => operate(operator, into, left, right),
        Operand::Constant(_) => operate(operator, into, right, left),
    }
}

/// A difference from a constant is a sum.
fn difference(into: u32, left: Operand, right: Operand) -> Instr
    ensures { instr_of result ≡ difference into (operand_of left) (operand_of right) }
{
    match right {
        Operand::Register(_) => operate(Alu::Difference, into, left, right),
        Operand::Constant(word) => {
            operate(Alu::Sum, into, left, Operand::Constant(negated(word)))
        }
    }
}

/// By a power of two, a product and a quotient are shifts.
fn shifted(operator: Alu, shift: Alu, into: u32, left: Operand, word: u32) -> Instr
    ensures { instr_of result ≡ shifted operator shift into (operand_of left) word (exponent_of word) }
{
    match exponent_of(word) {
        None => operate(operator, into, left, Operand::Constant(word)),
        Some(exponent) => operate(shift, into, left, Operand::Constant(exponent)),
    }
}

fn product(into: u32, left: Operand, right: Operand) -> Instr
    ensures { instr_of result ≡ product into (operand_of left) (operand_of right) }
{
    match left {
        Operand::Constant(word) => shifted(Alu::Product, Alu::ShiftLeft, into, right, word),
        Operand::Register(_) => match right {
            Operand::Constant(word) => shifted(Alu::Product, Alu::ShiftLeft, into, left, word),
            Operand::Register(_) => operate(Alu::Product, into, left, right),
        },
    }
}

fn quotient_unsigned(into: u32, left: Operand, right: Operand) -> Instr
    ensures { instr_of result ≡ quotient_unsigned into (operand_of left) (operand_of right) }
{
    match right {
        Operand::Register(_) => operate(Alu::QuotientUnsigned, into, left, right),
        Operand::Constant(word) => {
            shifted(Alu::QuotientUnsigned, Alu::ShiftRight, into, left, word)
        }
    }
}

/// By a power of two, a remainder keeps low bits.
fn masked(into: u32, left: Operand, word: u32) -> Instr
    ensures { instr_of result ≡ masked into (operand_of left) word (exponent_of word) }
{
    match exponent_of(word) {
        None => operate(Alu::RemainderUnsigned, into, left, Operand::Constant(word)),
        Some(_) => operate(
            Alu::BitAnd,
            into,
            left,
            Operand::Constant(word.saturating_sub(1)),
        ),
    }
}

fn remainder_unsigned(into: u32, left: Operand, right: Operand) -> Instr
    ensures { instr_of result ≡ remainder_unsigned into (operand_of left) (operand_of right) }
{
    match right {
        Operand::Register(_) => operate(Alu::RemainderUnsigned, into, left, right),
        Operand::Constant(word) => masked(into, left, word),
    }
}

/// 1 where a register holds 0, else 0.
fn is_zero(into: u32, value: Operand) -> Instr
    ensures { instr_of result ≡ operate alu.IsLessUnsigned into (operand_of value) (Constant 1) }
{
    operate(Alu::IsLessUnsigned, into, value, Operand::Constant(1))
}

/// 1 for 0, and 0 for 1.
fn untrue(into: u32, register: u32) -> Instr
    ensures { instr_of result ≡ operate alu.BitXor into (Register register) (Constant 1) }
{
    operate(
        Alu::BitXor,
        into,
        Operand::Register(register),
        Operand::Constant(1),
    )
}

/// What an operator between two operands becomes. The register `free` is one that it may take.
pub fn binary(
    shifts: bool,
    operator: BinaryOperator,
    into: u32,
    free: u32,
    left: Operand,
    right: Operand,
) -> Few
    ensures code { few_code result ≡ binary_code shifts operator into free (operand_of left) (operand_of right) }
    ensures needs { few_needs result ≡ binary_needs operator }
{
    let by = Operand::Register(free);
    match operator {
        BinaryOperator::Add => Few::One(in_order(Alu::Sum, into, left, right)),
        BinaryOperator::Subtract => Few::One(difference(into, left, right)),
        BinaryOperator::Multiply => Few::One(product(into, left, right)),
        BinaryOperator::Divide => quotient(shifts, into, free, left, right),
        BinaryOperator::DivideUnsigned => Few::One(quotient_unsigned(into, left, right)),
        BinaryOperator::Remainder => Few::One(operate(Alu::Remainder, into, left, right)),
        BinaryOperator::RemainderUnsigned => Few::One(remainder_unsigned(into, left, right)),
        BinaryOperator::And => Few::One(in_order(Alu::BitAnd, into, left, right)),
        BinaryOperator::Or => Few::One(in_order(Alu::BitOr, into, left, right)),
        BinaryOperator::Xor => Few::One(in_order(Alu::BitXor, into, left, right)),
        BinaryOperator::ShiftLeft => Few::One(operate(Alu::ShiftLeft, into, left, right)),
        BinaryOperator::ShiftRight => Few::One(operate(Alu::ShiftRightSigned, into, left, right)),
        BinaryOperator::ShiftRightUnsigned => {
            Few::One(operate(Alu::ShiftRight, into, left, right))
        }
        BinaryOperator::Equal => Few::Two(
            in_order(Alu::BitXor, free, left, right),
            is_zero(into, by),
        ),
        BinaryOperator::NotEqual => Few::Two(
            in_order(Alu::BitXor, free, left, right),
            operate(Alu::IsLessUnsigned, into, Operand::Constant(0), by),
        ),
        BinaryOperator::Less => Few::One(operate(Alu::IsLess, into, left, right)),
        BinaryOperator::LessUnsigned => {
            Few::One(operate(Alu::IsLessUnsigned, into, left, right))
        }
        BinaryOperator::AtLeast => Few::Two(
            operate(Alu::IsLess, free, left, right),
            untrue(into, free),
        ),
        BinaryOperator::AtLeastUnsigned => Few::Two(
            operate(Alu::IsLessUnsigned, free, left, right),
            untrue(into, free),
        ),
    }
}

/// The low bits of a word, moved up and down again.
fn by_shifts(back: Alu, bits: u32, into: u32, free: u32, value: Operand) -> Few
    ensures code { few_code result ≡ by_shifts back bits into free (operand_of value) }
    ensures needs { few_needs result ≡ 1 }
{
    let bits = Operand::Constant(bits);
    Few::Two(
        operate(Alu::ShiftLeft, free, value, bits),
        operate(back, into, Operand::Register(free), bits),
    )
}

fn convert(kind: Kind, into: u32, free: u32, value: Operand) -> Few
    ensures code { few_code result ≡ convert_code kind into free (operand_of value) }
    ensures needs { few_needs result ≡ convert_needs kind }
{
    match kind {
        Kind::Unsigned8 => Few::One(operate(Alu::BitAnd, into, value, Operand::Constant(255))),
        Kind::Signed8 => by_shifts(Alu::ShiftRightSigned, 24, into, free, value),
        Kind::Unsigned16 => by_shifts(Alu::ShiftRight, 16, into, free, value),
        Kind::Signed16 => by_shifts(Alu::ShiftRightSigned, 16, into, free, value),
        Kind::Word => Few::One(Instr::Set { into, value }),
    }
}

/// What an operator before its operand becomes. The register `free` is one that it may take.
pub fn unary(operator: UnaryOperator, into: u32, free: u32, value: Operand) -> Few
    ensures code { few_code result ≡ unary_code operator into free (operand_of value) }
    ensures needs { few_needs result ≡ unary_needs operator }
{
    match operator {
        UnaryOperator::Negate => Few::One(operate(
            Alu::Difference,
            into,
            Operand::Constant(0),
            value,
        )),
        UnaryOperator::Complement => Few::One(operate(
            Alu::BitXor,
            into,
            value,
            Operand::Constant(u32::MAX),
        )),
        UnaryOperator::IsZero => Few::One(is_zero(into, value)),
        UnaryOperator::Convert(kind) => convert(kind, into, free, value),
    }
}

impl Coder {
    /// An operator between two operands, whose value goes to a register.
    pub fn binary(
        &mut self,
        shifts: bool,
        operator: BinaryOperator,
        into: u32,
        left: Operand,
        right: Operand,
    ) -> Result<(), Memory>
        ensures { IfOk result (λ _. coded_of self.new ≡ more (coded_of self.old) (binary_code shifts operator into self.old.free (operand_of left) (operand_of right)) (binary_needs operator)) }
    {
        self.emit(binary(shifts, operator, into, self.free, left, right))
    }

    /// An operator before an operand, whose value goes to a register.
    pub fn unary(
        &mut self,
        operator: UnaryOperator,
        into: u32,
        value: Operand,
    ) -> Result<(), Memory>
        ensures { IfOk result (λ _. coded_of self.new ≡ more (coded_of self.old) (unary_code operator into self.old.free (operand_of value)) (unary_needs operator)) }
    {
        self.emit(unary(operator, into, self.free, value))
    }
}

/// The branch that an operator is.
pub fn condition_of(operator: BinaryOperator) -> Option<Condition>
    ensures { result ≡ condition_of operator }
{
    match operator {
        BinaryOperator::Equal => Some(Condition::Equal),
        BinaryOperator::NotEqual => Some(Condition::NotEqual),
        BinaryOperator::Less => Some(Condition::Less),
        BinaryOperator::LessUnsigned => Some(Condition::LessUnsigned),
        BinaryOperator::AtLeast => Some(Condition::AtLeast),
        BinaryOperator::AtLeastUnsigned => Some(Condition::AtLeastUnsigned),
        BinaryOperator::Add => None,
        BinaryOperator::Subtract => None,
        BinaryOperator::Multiply => None,
        BinaryOperator::Divide => None,
        BinaryOperator::DivideUnsigned => None,
        BinaryOperator::Remainder => None,
        BinaryOperator::RemainderUnsigned => None,
        BinaryOperator::And => None,
        BinaryOperator::Or => None,
        BinaryOperator::Xor => None,
        BinaryOperator::ShiftLeft => None,
        BinaryOperator::ShiftRight => None,
        BinaryOperator::ShiftRightUnsigned => None,
    }
}

/// The branch that is taken where another one isn't.
pub fn inverse(condition: Condition) -> Condition
    ensures { result ≡ inverse condition }
{
    match condition {
        Condition::Equal => Condition::NotEqual,
        Condition::NotEqual => Condition::Equal,
        Condition::Less => Condition::AtLeast,
        Condition::AtLeast => Condition::Less,
        Condition::LessUnsigned => Condition::AtLeastUnsigned,
        Condition::AtLeastUnsigned => Condition::LessUnsigned,
    }
}
