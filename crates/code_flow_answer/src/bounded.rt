// The answer of a search.

use code_flow_system::Cert;
use wcc_base::Items;

/// What a search found.
#[derive(Clone, Copy)]
pub enum Kind {
    /// The bound is the greatest value of a flow.
    Greatest,
    /// There is no flow.
    Empty,
    /// A bound alone: a product of that pivot, or a number of the last one, was too wide.
    Wide { pivot: u32 },
    /// A bound alone: so many columns and pivots did not suffice.
    Spent { columns: u32, pivots: u32 },
}

/// A flow of the system without its facts: its value, and for each fact the left side less the
/// right one.
#[derive(Drop)]
pub struct Column {
    pub value: i128,
    pub totals: Items<i128>,
}

/// A bound: its certificate, its kind, and the columns that were found for it.
#[derive(Drop)]
pub struct Bounded {
    pub cert: Cert,
    pub kind: Kind,
    pub columns: Items<Column>,
}
