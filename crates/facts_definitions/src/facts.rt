use c_tree::expression::NameId;
use thiserror::Error;
use types_calls::Ranks;
use wcc_base::{Compare, Items};

/// From how many up to how many times each entry of a loop starts its body.
#[derive(Clone, Copy)]
pub struct Bounds {
    pub min: u32,
    pub max: u32,
}

/// The bounds of a loop without a pragma, by its number, that were derived from its form.
#[derive(Clone, Copy)]
pub struct Derived {
    pub number: u32,
    pub bounds: Bounds,
}

/// From how many up to how many times each entry of a loop starts, its last test among them. `most` is less than
/// 2^32.
#[derive(Clone, Copy)]
pub struct Starts {
    pub least: u32,
    pub most: u32,
}

/// So many times the count of a function or marker.
#[derive(Clone, Copy)]
pub struct Term {
    pub coef: u32,
    pub name: NameId,
}

/// A comparison of two sums of counts, of a whole run, at the place of its pragma.
#[derive(Drop)]
pub struct Restriction {
    pub left: Items<Term>,
    pub op: Compare,
    pub right: Items<Term>,
    pub at: u32,
}

/// What a source says of its counts.
#[derive(Drop)]
pub struct Facts {
    pub ranks: Ranks,
    /// The names of the defined functions, in the order of their definitions.
    pub functions: Items<NameId>,
    /// The bounds of the loops, in the order of their numbers.
    pub bounds: Items<Bounds>,
    /// The names of the markers, in source order.
    pub markers: Items<NameId>,
    /// The restrictions, in source order.
    pub restrictions: Items<Restriction>,
    /// How many nodes a run of main executes at most, as the loops' bounds allow.
    pub most: u64,
}

/// Why there are no facts.
#[derive(Debug, Drop, Error)]
pub enum FlowFault {
    #[error("a pragma breaks its form")]
    BadPragma { at: u32 },
    #[error("a restriction names neither a marker nor a defined function")]
    UnknownName { at: u32 },
    #[error("a loop has no bound")]
    NoBound { at: u32 },
    #[error("the bounds of the loops allow too many node executions")]
    TooOften { most: u64 },
    #[error("out of memory")]
    Memory,
}
