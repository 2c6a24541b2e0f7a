// The master program: weights of columns that keep the facts, or pay for those that they break.

use crate::cells::{CELLS, cell, number_at, put};
use code_flow_answer::Column;
use std::alloc::{AllocError, Global};
use std::num::nearest_i64_to_f64;
use wcc_base::Compare;

/// No master has more columns.
pub const MOST_COLUMNS: usize = 400;

/// How often its greatest total, or the greatest value, a fact that is broken costs at first.
const FIRST_COST: f64 = 4.0;

/// A master program, as a tableau: its rows are those of the facts, that of the weights' sum, and that of the gains.
///
/// The places of a row are its right side; for each fact its slack, and by how much it is broken; the sum of the weights; and
/// the columns.
#[derive(Drop)]
pub struct Master {
    pub(crate) ops: Vec<Compare>,
    pub(crate) cells: Vec<f64>,
    /// The place that each row owns.
    pub(crate) owns: Vec<usize>,
    /// The columns' values, over the unit.
    pub(crate) values: Vec<f64>,
    /// The facts' totals of one column after the other.
    pub(crate) totals: Vec<i128>,
    /// The greatest value without facts.
    pub(crate) unit: f64,
    /// What each fact's totals are measured in.
    pub(crate) sizes: Vec<f64>,
    /// What a fact that is broken costs.
    pub(crate) cost: f64,
    /// The prices of facts that were asked last, and those of the least bound, which is over the unit.
    pub(crate) asked: Vec<f64>,
    pub(crate) center: Vec<f64>,
    pub(crate) least: f64,
    /// Whether the next prices lie half way to those of the least bound.
    pub(crate) halves: bool,
}

/// A whole number as a float, at most about 2^63.
pub(crate) fn float(number: i128) -> f64 {
    if number > i128::from(i64::MAX) {
        return nearest_i64_to_f64(i64::MAX);
    }
    if number < i128::from(i64::MIN) {
        return nearest_i64_to_f64(i64::MIN);
    }
    nearest_i64_to_f64(number as i64)
}

/// A total of a list.
pub(crate) fn whole_at(totals: &[i128], fact: usize) -> i128 {
    if fact < totals.len() { totals[fact] } else { 0 }
}

/// A total of a list as a float.
pub(crate) fn total_at(totals: &[i128], fact: usize) -> f64 {
    float(whole_at(totals, fact))
}

/// The slack's place.
pub(crate) fn slack(fact: usize) -> usize {
    fact.wrapping_mul(2).wrapping_add(1)
}

/// The place of how much a fact is broken.
pub(crate) fn broken(fact: usize) -> usize {
    fact.wrapping_mul(2).wrapping_add(2)
}

/// The sign with which a fact's total stands in its row.
pub(crate) fn sign(ops: &[Compare], fact: usize) -> f64 {
    if fact < ops.len() && matches!(ops[fact], Compare::AtLeast) {
        -1.0
    } else {
        1.0
    }
}

impl Master {
    /// The place of the weights' sum.
    pub(crate) fn sum(&self) -> usize {
        slack(self.ops.len())
    }

    /// The place of the first column.
    pub(crate) fn first(&self) -> usize {
        broken(self.ops.len())
    }

    /// How many places a row has.
    pub(crate) fn width(&self) -> usize {
        self.first().wrapping_add(self.values.len())
    }

    /// The row of the gains.
    pub(crate) fn gains(&self) -> usize {
        self.ops.len().wrapping_add(1)
    }

    /// What a row makes of a column.
    fn entry(&self, row: usize, totals: &[i128]) -> f64 {
        let mut all = cell(&self.cells, row, self.sum());
        for fact in 0..self.ops.len() {
            let size = number_at(&self.sizes, fact, 1.0);
            let total = sign(&self.ops, fact) * total_at(totals, fact) / size;
            all += cell(&self.cells, row, slack(fact)) * total;
        }
        all
    }

    /// Keeps the totals of a column.
    fn keep_totals(&mut self, totals: &[i128]) -> Result<(), AllocError> {
        for fact in 0..self.ops.len() {
            self.totals.push(whole_at(totals, fact))?;
        }
        Ok(())
    }

    /// Adds a column, if there is room.
    pub(crate) fn add(&mut self, column: &Column) -> Result<(), AllocError> {
        if self.values.len() >= MOST_COLUMNS {
            return Ok(());
        }
        let place = self.width();
        for row in 0..self.gains() {
            let number = self.entry(row, column.totals.as_slice());
            put(&mut self.cells, row, place, number);
        }
        let value = float(column.value) / self.unit;
        self.values.push(value)?;
        self.keep_totals(column.totals.as_slice())?;
        Ok(())
    }
}

/// What the facts' totals are measured in: those of a column.
fn sizes_of(alloc: Global, facts: usize, totals: &[i128]) -> Result<Vec<f64>, AllocError> {
    let mut sizes = Vec::new(alloc);
    for fact in 0..facts {
        sizes.push(total_at(totals, fact).abs().max(1.0))?;
    }
    Ok(sizes)
}

/// The places that the rows own at first: the slacks and the sum.
fn owns_of(alloc: Global, facts: usize) -> Result<Vec<usize>, AllocError> {
    let mut owns = Vec::new(alloc);
    for fact in 0..facts {
        owns.push(slack(fact))?;
    }
    owns.push(slack(facts))?;
    Ok(owns)
}

/// The tableau without columns.
fn cells_of(alloc: Global, facts: usize) -> Result<Vec<f64>, AllocError> {
    let mut cells = vec![in alloc; 0.0; CELLS]?;
    for fact in 0..facts {
        put(&mut cells, fact, slack(fact), 1.0);
        put(&mut cells, fact, broken(fact), -1.0);
    }
    put(&mut cells, facts, slack(facts), 1.0);
    put(&mut cells, facts, 0, 1.0);
    Ok(cells)
}

/// The master program of one column, that of the greatest flow without facts.
pub fn begun(alloc: Global, ops: &[Compare], column: &Column) -> Result<Master, AllocError> {
    let facts = ops.len();
    let cells = cells_of(alloc, facts)?;
    let owns = owns_of(alloc, facts)?;
    let sizes = sizes_of(alloc, facts, column.totals.as_slice())?;
    let ops = Vec::from_slice(alloc, ops)?;
    let mut master = Master {
        ops,
        cells,
        owns,
        values: Vec::new(alloc),
        totals: Vec::new(alloc),
        unit: float(column.value).max(1.0),
        sizes,
        cost: FIRST_COST,
        asked: Vec::new(alloc),
        center: Vec::new(alloc),
        least: f64::MAX,
        halves: false,
    };
    master.add(column)?;
    master.begin();
    Ok(master)
}
