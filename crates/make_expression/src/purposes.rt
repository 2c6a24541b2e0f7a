// What parts of an expression are for.
ghost use Rattle.std.specs.Prelude.{◌≡◌, IfOk};
ghost use Rattle.make_pieces.specs.View.{valued_of};
ghost use Rattle.plan_definition.specs.Operators.{convert, signed};
ghost use Rattle.plan_definition.specs.Values.{changed_by, finished, for_operand, plain, signed_for};

use make_pieces::Valued;
use make_pieces::operators::{convert, signed};
use plan_definition::Purpose;
use std::alloc::Global;
use types_value::{Kind, Sign};
use wcc_base::Memory;

/// A value that is converted is dropped where the conversion is.
pub fn plain(purpose: Purpose) -> Purpose
    ensures { result ≡ plain purpose }
{
    match purpose {
        Purpose::Effect => Purpose::Effect,
        Purpose::Value => Purpose::Value,
        Purpose::Unless { .. } => Purpose::Value,
        Purpose::When { .. } => Purpose::Value,
    }
}

/// A test that is negated is made for the other jump.
pub fn for_operand(operator: Sign, purpose: Purpose) -> Purpose
    ensures { result ≡ for_operand operator purpose }
{
    match operator {
        Sign::Not => match purpose {
            Purpose::Unless { depth } => Purpose::When { depth },
            Purpose::When { depth } => Purpose::Unless { depth },
            Purpose::Value => Purpose::Value,
            Purpose::Effect => Purpose::Value,
        },
        Sign::Negate => Purpose::Value,
        Sign::Plus => Purpose::Value,
        Sign::Complement => Purpose::Value,
    }
}

fn sign(alloc: Global, operator: Sign, purpose: Purpose, operand: Valued) -> Result<Valued, Memory>
    ensures { IfOk result (λ v. valued_of v ≡ finished purpose (changed_by (signed operator) (valued_of operand))) }
{
    let Valued { code, value } = operand;
    match signed(alloc, operator, value) {
        Ok(value) => Valued { code, value }.finished(alloc, purpose),
        Err(memory) => {
            code.let_go();
            Err(memory)
        }
    }
}

/// A sign on an operand that was made for it.
pub fn signed_for(
    alloc: Global,
    operator: Sign,
    purpose: Purpose,
    operand: Valued,
) -> Result<Valued, Memory>
    ensures { IfOk result (λ v. valued_of v ≡ signed_for operator purpose (valued_of operand)) }
{
    match operator {
        Sign::Not => match purpose {
            Purpose::Unless { .. } => Ok(operand),
            Purpose::When { .. } => Ok(operand),
            Purpose::Value => sign(alloc, operator, purpose, operand),
            Purpose::Effect => sign(alloc, operator, purpose, operand),
        },
        Sign::Negate => sign(alloc, operator, purpose, operand),
        Sign::Plus => sign(alloc, operator, purpose, operand),
        Sign::Complement => sign(alloc, operator, purpose, operand),
    }
}

/// A conversion of an operand that was made for it.
pub fn converted(
    alloc: Global,
    to: Kind,
    purpose: Purpose,
    operand: Valued,
) -> Result<Valued, Memory>
    ensures { IfOk result (λ v. valued_of v ≡ finished purpose (changed_by (convert to) (valued_of operand))) }
{
    let Valued { code, value } = operand;
    match convert(alloc, to, value) {
        Ok(value) => Valued { code, value }.finished(alloc, purpose),
        Err(memory) => {
            code.let_go();
            Err(memory)
        }
    }
}
