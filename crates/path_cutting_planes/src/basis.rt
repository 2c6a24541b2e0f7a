// The equations of which a solution's weights are the only solution.
ghost use Rattle.std.specs.Prelude.{◌<◌, IfOk, All};

use crate::master::{Master, broken, slack, whole_at};
use std::alloc::{AllocError, Global};

/// As many linear equations as unknowns, the weights of columns.
#[derive(Drop)]
pub struct Equations {
    /// The columns.
    pub columns: Vec<usize>,
    /// The equations, one after the other: each has a number for each column, and its right side.
    pub rows: Vec<i128>,
}

impl Master {
    /// Whether the solution keeps a fact as an equation: no row owns its slack, or by how much it is broken.
    fn is_tight(&self, fact: usize) -> bool {
        for row in 0..self.owns.len() {
            if self.owns[row] == slack(fact) || self.owns[row] == broken(fact) {
                return false;
            }
        }
        true
    }

    /// The total of a fact of a column.
    fn total_of(&self, column: usize, fact: usize) -> i128 {
        let at = column.wrapping_mul(self.ops.len()).wrapping_add(fact);
        whole_at(&self.totals, at)
    }
}

/// The columns that rows own, of the first so many.
fn columns_of(alloc: Global, master: &Master, columns: usize) -> Result<Vec<usize>, AllocError>
    ensures { IfOk result (λ v. All (λ k. k < columns) v.items) }
{
    let mut own = Vec::new(alloc);
    for row in 0..master.owns.len() {
        let column = master.owns[row].wrapping_sub(master.first());
        if master.owns[row] >= master.first() && column < columns {
            own.push(column)?;
        }
    }
    Ok(own)
}

/// Adds the equation that all weights together are 1.
fn push_sum(rows: &mut Vec<i128>, columns: usize) -> Result<(), AllocError> {
    for _ in 0..columns {
        rows.push(1)?;
    }
    rows.push(1)?;
    Ok(())
}

/// Adds the equation that the total of a fact is 0.
fn push_fact(
    rows: &mut Vec<i128>,
    master: &Master,
    columns: &[usize],
    fact: usize,
) -> Result<(), AllocError> {
    for k in 0..columns.len() {
        rows.push(master.total_of(columns[k], fact))?;
    }
    rows.push(0)?;
    Ok(())
}

/// The equations of a solution's weights, of the first so many columns: together they are 1, and they keep the facts that are tight.
pub fn equations_of(alloc: Global, master: &Master, columns: usize) -> Result<Equations, AllocError>
    ensures { IfOk result (λ e. All (λ k. k < columns) e.columns.items) }
{
    let own = columns_of(alloc, master, columns)?;
    let mut rows = Vec::new(alloc);
    push_sum(&mut rows, own.len())?;
    for fact in 0..master.ops.len() {
        if master.is_tight(fact) {
            push_fact(&mut rows, master, &own, fact)?;
        }
    }
    Ok(Equations { columns: own, rows })
}
