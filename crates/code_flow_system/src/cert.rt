// Certificates: what shows that no flow has a greater value.

use wcc_base::Items;

/// How often a move is made, over the flow's unit.
#[derive(Clone, Copy)]
pub struct Part {
    pub at: u32,
    pub number: u8,
    pub part: i128,
}

/// A flow as a list: the moves that it makes, each with a number over the unit.
#[derive(Drop)]
pub struct Flow {
    pub unit: u64,
    pub parts: Items<Part>,
}

/// What a certificate says beside its bound.
#[derive(Clone, Copy)]
pub enum Mark {
    /// The bound is the greatest value of a flow, that of the listed one.
    Greatest,
    /// There is no flow.
    Empty,
    Neither,
}

/// A certificate: a bound in cycles, the potentials of the addresses and the multipliers of the
/// claims, all over the scale, and a flow.
#[derive(Drop)]
pub struct Cert {
    pub cycles: u64,
    pub mark: Mark,
    pub scale: u64,
    /// Addresses with their potentials.
    pub potentials: Items<(u32, i128)>,
    /// One multiplier for each never claim.
    pub nevers: Items<i128>,
    /// For each loop claim the multipliers of its least and of its most.
    pub loops: Items<(i128, i128)>,
    /// One multiplier for each fact claim.
    pub facts: Items<i128>,
    pub flow: Flow,
}
