ghost use Rattle.std.specs.Prelude.{◌≡◌};
ghost use Rattle.parse_grammar.specs.Begun.{demand, limit};
ghost use Rattle.parse_begun.specs.View.{Names, purpose_of, stack_of};

use super::role::operator_level;
use parse_begun::begun::{Purpose, Stack};

/// The level that a whole expression may have.
fn limit_of(purpose: &Purpose) -> u8
    ensures { (f : Names) → result ≡ limit (purpose_of f purpose.now) }
{
    match purpose {
        Purpose::Sizes(_) => 13,
        Purpose::Labels { .. } => 13,
        Purpose::Initialises(_) => 14,
        Purpose::Lists(_, _) => 14,
        _ => 15,
    }
}

/// The level that an operand may have.
pub fn demand_of(under: &Stack) -> u8
    ensures { (f : Names) → result ≡ demand (stack_of f under.now) }
{
    match under {
        Stack::Base(purpose) => limit_of(purpose),
        Stack::AfterPrefix { .. } => 2,
        Stack::AfterCast { .. } => 2,
        Stack::AfterJoin { operator, .. } => operator_level(*operator) - 1,
        Stack::AfterColon { .. } => 13,
        Stack::AfterAssign { .. } => 14,
        Stack::InCall(_, _, _) => 14,
        _ => 15,
    }
}
