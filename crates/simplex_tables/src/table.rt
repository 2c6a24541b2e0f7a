// A table of rows.

use wcc_base::Items;

/// Rows, each with the variable that it is solved for, and the rows of the two objectives.
#[derive(Drop)]
pub struct Table {
    pub owns: Items<usize>,
    pub rows: Items<Items<i128>>,
    pub one: Items<i128>,
    pub two: Items<i128>,
}
