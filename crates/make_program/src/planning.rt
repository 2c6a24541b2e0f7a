// The parts of the program that a typed program becomes.
ghost use Rattle.std.specs.Prelude.{ℕ, ◌≡◌, All, IfOk, map};
ghost use Rattle.types_tree.specs.View.{program_of};
ghost use Rattle.high_ir.specs.View.{function_of, program};
ghost use Rattle.plan_definition.specs.Layouts.{homes_of};
ghost use Rattle.plan_definition.specs.Programs.{functions_planned, plan_of, program_planned};
ghost use Rattle.make_statement.specs.Planned.{IsSmall};

use super::functions::functions;
use super::homes::homes;
use super::objects::objects;
use facts_definitions::Facts;
use high_ir::Function;
use high_ir::object::Object;
use make_expression::Scope;
use make_pieces::numbers::{offset, sum};
use make_statement::Plan;
use plan_definition::Home;
use std::alloc::Global;
use types_tree::program::Program;
use wcc_base::Memory;

/// The parts of a program in the high form.
#[derive(Drop)]
pub struct Planned {
    pub functions: Vec<Function>,
    pub objects: Vec<Object>,
    /// How many marks and loops it has.
    pub marks: u32,
    pub loops: u32,
}

/// The functions of a program whose objects live at these homes.
fn planned_functions<'a>(
    alloc: Global,
    unit: &'a Program,
    facts: &'a Facts,
    homes: &'a [Home],
) -> Result<Vec<Function>, Memory>
    requires small { All IsSmall facts.now.bounds }
    requires homes { homes.now ≡ homes_of (program_of unit.now) }
    ensures { IfOk result (λ v. map function_of v.items ≡ functions_planned (plan_of (program_of unit.now) facts.now) unit.now.variables.items facts.now.ranks.of_functions 0 (program_of unit.now).functions) }
{
    let plan = Plan {
        scope: Scope { alloc, homes },
        bounds: facts.bounds.as_slice(),
        functions: offset(0, unit.functions.len())?,
    };
    let ranks = facts.ranks.of_functions.as_slice();
    functions(alloc, &plan, &unit.variables, ranks, &unit.functions)
}

/// The parts of the program that a typed program becomes; its main function has the number that `main` says.
pub fn program(alloc: Global, unit: &Program, facts: &Facts) -> Result<Planned, Memory>
    requires { All IsSmall facts.now.bounds }
    ensures { IfOk result (λ p. (main : ℕ) → program p.functions.items p.objects.items main p.marks p.loops ≡ program_planned (program_of unit.now) facts.now main) }
{
    let marks = sum(
        offset(0, unit.functions.len())?,
        offset(0, facts.markers.as_slice().len())?,
    )?;
    let loops = offset(0, facts.bounds.as_slice().len())?;
    let homes = homes(alloc, unit)?;
    let objects = objects(alloc, &unit.variables, &unit.items)?;
    match planned_functions(alloc, unit, facts, &homes) {
        Ok(functions) => Ok(Planned {
            functions,
            objects,
            marks,
            loops,
        }),
        Err(memory) => {
            drop(objects);
            Err(memory)
        }
    }
}
