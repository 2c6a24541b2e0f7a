// The program of a source.
ghost use Rattle.std.specs.Prelude.{◌≡◌, IfOk};
ghost use Rattle.facts_definitions.specs.FlowFacts.{AreFacts, main_of};
ghost use Rattle.types_tree.specs.View.{program_of as source_of};
ghost use Rattle.plan_carried.specs.Sources.{planned_listing};
ghost use Rattle.high_ir.specs.Programs.{program_of};
ghost use Rattle.plan_law.specs.Plans.{KeepsSource};
ghost use Rattle.high_pass.specs.Listing.{listing_of};
ghost use Rattle.plan_definition.specs.Programs.{program_planned};
ghost use Rattle.high_make.specs.Trees.{FitsTree};

use super::copies::copies;
use c_meaning::main_of;
use c_types::Typed;
use facts_definitions::Facts;
use high_ir::{Carried, High};
use make_pieces::numbers::offset;
use make_program::{Planned, program};
use std::alloc::Global;
use wcc_base::Memory;

fn high(alloc: Global, unit: &Typed, facts: &Facts) -> Result<High, Memory>
    requires { AreFacts (source_of unit.now.program) unit.now.program.names.items facts.now }
    ensures { IfOk result (λ h. program_of h ≡ program_planned (source_of unit.now.program) facts.now (main_of (source_of unit.now.program) unit.now.program.names.items)) }
{
    let source = unit.program();
    let main = offset(0, main_of(source))?;
    let Planned {
        functions,
        objects,
        marks,
        loops,
    } = program(alloc, source, facts)?;
    Ok(High {
        functions,
        objects,
        main,
        marks,
        loops,
    })
}

/// The program of a source in the high form, and what became in it of the source's functions, markers and loops. It fails
/// only for want of memory.
pub fn make(alloc: Global, unit: &Typed, facts: &Facts) -> Result<Carried, Memory>
    requires { AreFacts (source_of unit.now.program) unit.now.program.names.items facts.now }
    ensures planned { IfOk result (λ c. program_of c.program ≡ program_planned (source_of unit.now.program) facts.now (main_of (source_of unit.now.program) unit.now.program.names.items)) }
    ensures listed { IfOk result (λ c. listing_of c.copies ≡ planned_listing (source_of unit.now.program) facts.now) }
    ensures keeps { IfOk result (λ c. ∥ KeepsSource unit.now.program.names.items (source_of unit.now.program) facts.now (program_of c.program) (listing_of c.copies) ∥₁) }
    ensures fits { IfOk result (λ c. ∥ FitsTree unit.now.program.names.items (source_of unit.now.program) (program_of c.program) ∥₁) }
{
    let copies = copies(alloc, unit.program(), facts)?;
    match high(alloc, unit, facts) {
        Ok(program) => Ok(Carried { program, copies }),
        Err(memory) => {
            drop(copies);
            Err(memory)
        }
    }
}
