// An instruction about to be executed.
use rv_core::{Instr, Region};

/// An instruction, the region that it was fetched from, and the limit of cycles, if there is one.
#[derive(Drop)]
pub struct Issue {
    pub instr: Instr,
    pub fetch: Region,
    pub limit: Option<u64>,
}
