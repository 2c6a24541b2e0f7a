use frac128::Sum;
use wcc_base::{Compare, Items};

/// Where each function and each marker stands in a machine program, by ascending address.
#[derive(Drop)]
pub struct Places {
    pub of_functions: Items<Items<u32>>,
    pub of_markers: Items<Items<u32>>,
}

/// A comparison of two sums of counts of addresses, from the restriction whose pragma stands there.
#[derive(Drop)]
pub struct AddressFact {
    pub left: Sum,
    pub op: Compare,
    pub right: Sum,
    pub at: u32,
}
