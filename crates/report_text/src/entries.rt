// Lines of a report that are no claims and no certificate.

use wcc_base::{Items, Text};

/// A function or a marker, and the addresses at which its copies stand.
#[derive(Drop)]
pub struct CopyLine {
    pub name: Text,
    pub places: Items<u32>,
}

/// How much of the bound the code from `first` up to `end` has: that of a function, or of none.
/// `part` is over the flow's unit.
#[derive(Drop)]
pub struct Share {
    pub name: Option<Text>,
    pub first: u32,
    pub end: u32,
    pub part: i128,
}
