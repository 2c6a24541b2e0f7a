//! The stages between a source and its image: its programs in the high form, its code over places, its image in memory.
//!
//! `specs/Made` has a record for each stage behind the high form, joined by the programs between them, and what the last
//! program keeps of the source (`compile_high_definitions`); `specs/Placed` says what of it lies in the scratchpad. What is shown of what is made (its search, its report, its runs) rests on
//! these alone, and on no plan and no pass.
#![tactic(auto)]

mod made;

pub use made::{Lowered, Made, Stages};
