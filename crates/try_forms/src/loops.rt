// The loops of a program.
use high_ir::High;
use high_ir::statement::Statement;
use std::alloc::Global;
use wcc_base::Memory;

/// From how many up to how many times each entry of a loop starts its body.
#[derive(Clone, Copy)]
pub struct Bounds {
    pub least: u32,
    pub most: u32,
}

/// The loops of a statement, behind those that were found.
#[cycle(loops)]
fn add_loops(statement: &Statement, found: &mut Vec<Bounds>) -> Result<(), Memory> {
    match statement {
        Statement::Loop { min, max, body, .. } => {
            found.push(Bounds {
                least: *min,
                most: *max,
            })?;
            add_loops(body, found)
        }
        Statement::Seq(parts) => add_all_loops(parts, found),
        Statement::If { first, other, .. } => {
            add_loops(first, found)?;
            add_loops(other, found)
        }
        Statement::Block(body) => add_loops(body, found),
        _ => Ok(()),
    }
}

#[cycle(loops)]
fn add_all_loops(parts: &[Statement], found: &mut Vec<Bounds>) -> Result<(), Memory> {
    for part in parts {
        add_loops(part, found)?;
    }
    Ok(())
}

/// The bounds of all loops, in the order in which they stand, which is that of their numbers.
pub fn bounds_of_loops(alloc: Global, program: &High) -> Result<Vec<Bounds>, Memory> {
    let mut found = Vec::new(alloc);
    for function in &program.functions {
        add_loops(&function.body, &mut found)?;
    }
    Ok(found)
}
