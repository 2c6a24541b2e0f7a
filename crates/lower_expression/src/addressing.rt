// Indices and addresses.
ghost use Rattle.std.specs.Prelude.{◌≡◌, ◌≤◌, ◌<◌, ◌^◌, IfOk, option_map};
ghost use Rattle.high_ir.specs.declared.expression.BinaryOperator.TheVariants.{Add, Subtract};
ghost use Rattle.high_ir.specs.declared.object.Base.TheVariants.{Parameter};
ghost use Rattle.lower_coder.specs.declared.coder.Coder.{Coder};
ghost use Rattle.low_ir.specs.Code.{Register};
ghost use Rattle.lower_expression.specs.View.{index_in, offset_in, scope_of, shares_of, split_by};
ghost use Rattle.low_ir.specs.View as low;
ghost use Rattle.low_ir.specs.View.{operand_of};
ghost use Rattle.lower_definition.specs.Objects.{scale_of};
ghost use Rattle.lower_definition.specs.Values as values;
ghost use Rattle.lower_definition.specs.Values.{Valued, address, base_of, bytes, offset_of, scaled, split};

use super::scope::Scope;
use super::sharing::{Share, shared};
use high_ir::expression::BinaryOperator;
use high_ir::object::{Base as HighBase, Kind};
use low_ir::{Address, Base, Operand};
use lower_coder::Coder;
use lower_coder::numbers::sum;
use lower_coder::objects::scale_of;
use lower_coder::operators::{negated, operate};
use rv_core::Alu;
use wcc_base::Memory;

/// An index as a value, and a constant that is added to it.
#[derive(Clone, Copy)]
pub struct Index {
    pub part: Operand,
    pub constant: u32,
}

/// What an address has beside its base: bytes in a register, and a displacement.
#[derive(Clone, Copy)]
pub struct Offset {
    pub register: Option<u32>,
    pub displacement: u32,
}

/// Which side of a sum or a difference is a constant, and what it adds.
#[derive(Clone, Copy)]
pub enum Side {
    Left(u32),
    Right(u32),
    Whole,
}

impl Index {
    pub fn plain(part: Operand) -> Index
        ensures part { result.part ≡ part }
        ensures constant { result.constant ≡ 0 }
    {
        Index { part, constant: 0 }
    }
}

impl Offset {
    /// The address at a base.
    pub fn at(self, base: Base) -> Address
        ensures { (c : Coder) → low.address_of result ≡ address (low.base_of base) (offset_in c self) }
    {
        Address {
            base,
            offset: self.register,
            displacement: self.displacement,
        }
    }
}

fn split_sum(left: Option<Operand>, right: Option<Operand>) -> Side
    ensures { (of_left of_right : Valued) (whole : values.Index) → split Add (option_map operand_of left) (option_map operand_of right) of_left of_right whole ≡ split_by result of_left of_right whole }
{
    if let Some(Operand::Constant(word)) = right {
        return Side::Right(word);
    }
    if let Some(Operand::Constant(word)) = left {
        return Side::Left(word);
    }
    Side::Whole
}

fn split_difference(left: Option<Operand>, right: Option<Operand>) -> Side
    ensures { (of_left of_right : Valued) (whole : values.Index) → split Subtract (option_map operand_of left) (option_map operand_of right) of_left of_right whole ≡ split_by result of_left of_right whole }
{
    if let Some(Operand::Constant(word)) = right {
        return Side::Right(negated(word));
    }
    Side::Whole
}

/// Which side of an operator may be added as a constant.
pub fn split(operator: BinaryOperator, left: Option<Operand>, right: Option<Operand>) -> Side
    ensures { (of_left of_right : Valued) (whole : values.Index) → split operator (option_map operand_of left) (option_map operand_of right) of_left of_right whole ≡ split_by result of_left of_right whole }
{
    match operator {
        BinaryOperator::Add => split_sum(left, right),
        BinaryOperator::Subtract => split_difference(left, right),
        BinaryOperator::Multiply => Side::Whole,
        BinaryOperator::Divide => Side::Whole,
        BinaryOperator::DivideUnsigned => Side::Whole,
        BinaryOperator::Remainder => Side::Whole,
        BinaryOperator::RemainderUnsigned => Side::Whole,
        BinaryOperator::And => Side::Whole,
        BinaryOperator::Or => Side::Whole,
        BinaryOperator::Xor => Side::Whole,
        BinaryOperator::ShiftLeft => Side::Whole,
        BinaryOperator::ShiftRight => Side::Whole,
        BinaryOperator::ShiftRightUnsigned => Side::Whole,
        BinaryOperator::Equal => Side::Whole,
        BinaryOperator::NotEqual => Side::Whole,
        BinaryOperator::Less => Side::Whole,
        BinaryOperator::LessUnsigned => Side::Whole,
        BinaryOperator::AtLeast => Side::Whole,
        BinaryOperator::AtLeastUnsigned => Side::Whole,
    }
}

/// The bytes of an element.
fn element_bytes(kind: Kind) -> u64
    ensures bytes { result ≡ 2 ^ scale_of kind }
    ensures most { result ≤ 4 }
{
    match kind {
        Kind::Unsigned8 => 1,
        Kind::Signed8 => 1,
        Kind::Unsigned16 => 2,
        Kind::Signed16 => 2,
        Kind::Word => 4,
    }
}

/// The bytes of so many elements, modulo 2^32.
fn bytes(kind: Kind, elements: u64) -> u32
    requires { elements < 2 ^ 33 }
    ensures { result ≡ bytes (scale_of kind) elements }
{
    (element_bytes(kind) * elements % (1 << 32)) as u32
}

/// A register with the offset of an index in it: a shared one, or one of its own.
fn scaled(
    shares: &[Share],
    kind: Kind,
    register: u32,
    index: Index,
    coder: &mut Coder,
) -> Result<Offset, Memory>
    requires { operand_of index.part ≡ Register register }
    ensures { IfOk result (λ o. offset_in coder.new o ≡ scaled (shares_of shares.now) (scale_of kind) register (index_in coder.old index)) }
{
    let scale = scale_of(kind);
    if scale == 0 {
        return Ok(Offset {
            register: Some(register),
            displacement: index.constant,
        });
    }
    let displacement = bytes(kind, u64::from(index.constant));
    if let Some(shared) = shared(shares, register, scale) {
        return Ok(Offset {
            register: Some(shared),
            displacement,
        });
    }
    let into = coder.free;
    coder.push(operate(
        Alu::ShiftLeft,
        into,
        Operand::Register(register),
        Operand::Constant(scale),
    ))?;
    coder.fresh()?;
    Ok(Offset {
        register: Some(into),
        displacement,
    })
}

/// The offset of an index of elements of a kind.
pub fn offset_of(
    shares: &[Share],
    kind: Kind,
    index: Index,
    coder: &mut Coder,
) -> Result<Offset, Memory>
    ensures { IfOk result (λ o. offset_in coder.new o ≡ offset_of (shares_of shares.now) (scale_of kind) (index_in coder.old index)) }
{
    match index.part {
        Operand::Constant(word) => Ok(Offset {
            register: None,
            displacement: bytes(kind, u64::from(word) + u64::from(index.constant)),
        }),
        Operand::Register(register) => scaled(shares, kind, register, index, coder),
    }
}

/// Where the array that is passed for a parameter begins.
fn through(scope: &Scope, parameter: u32) -> Result<Option<Base>, Memory>
    ensures { IfOk result (λ b. option_map low.base_of b ≡ base_of (scope_of scope.now) (Parameter parameter)) }
{
    let register = sum(scope.variables, parameter)?;
    match scope.claims.get(parameter as usize) {
        None => Ok(None),
        Some(None) => Ok(None),
        Some(Some(claim)) => Ok(Some(Base::Pointer {
            register,
            claim: *claim,
        })),
    }
}

/// Where an array begins, if it is there.
pub fn base_of(scope: &Scope, base: HighBase) -> Result<Option<Base>, Memory>
    ensures { IfOk result (λ b. option_map low.base_of b ≡ base_of (scope_of scope.now) base) }
{
    match base {
        HighBase::Object(object) => {
            if object < scope.objects {
                return Ok(Some(Base::Object(object)));
            }
            Ok(None)
        }
        HighBase::Parameter(parameter) => through(scope, parameter),
    }
}
