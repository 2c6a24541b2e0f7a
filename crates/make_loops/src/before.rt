// Loops that stand in the head of another.
ghost use Rattle.std.specs.Prelude.{◌≡◌, IfOk, map};
ghost use Rattle.types_tree.specs.View.{initial_of, object_of, start_of};
ghost use Rattle.plan_definition.specs.Statements.{fillings_in, fillings_of, loops_before};

use make_pieces::numbers::sum;
use types_tree::declaration::{Declaration, Initial, Object};
use types_tree::statement::ForStart;
use wcc_base::Memory;

fn fillings_of(initial: &Initial) -> u32
    ensures { result ≡ fillings_of (initial_of initial.now) }
{
    match initial {
        Initial::Absent => 0,
        Initial::Value(_) => 0,
        Initial::List { filling, .. } => match filling {
            None => 0,
            Some(_) => 1,
        },
    }
}

fn fillings_in(objects: &[Object]) -> Result<u32, Memory>
    ensures { IfOk result (λ n. n ≡ fillings_in (map object_of objects.now)) }
{
    let mut fillings = 0;
    for object in objects {
        fillings = sum(fillings, fillings_of(&object.initial))?;
    }
    Ok(fillings)
}

/// How many loops stand in the head of a `for`.
pub fn loops_before(start: &ForStart) -> Result<u32, Memory>
    ensures { IfOk result (λ n. n ≡ loops_before (start_of start.now)) }
{
    match start {
        ForStart::Absent => Ok(0),
        ForStart::Expression(_) => Ok(0),
        ForStart::Declaration(declaration) => match declaration {
            Declaration::Objects { objects, .. } => Ok(fillings_in(objects)?),
            Declaration::Prototype { .. } => Ok(0),
        },
    }
}
