//! Images as files: 32-bit little-endian ELF executables for RISC-V.
//!
//! `write` gives the one canonical text of an image: the ELF header, a program header for each
//! segment in ascending order of addresses, and the bytes of the segments one behind the other.
//! `read` takes any executable whose segments the machine can load, also one that another linker
//! made: `specs/Headers.antt` says where the fields stand, and `specs/Loading.antt` what the bytes
//! load to and when they are refused.
//!
//! Proved: `write` gives the canonical text. `read` answers the image that the bytes load to, and
//! each refusal exactly where it is the first that holds, in the order `NotElf`, `WrongMachine`,
//! `BadSegment`; want of memory alone is left open. `read_of_write` is the law that the text of an
//! image loads to the same image. Reading copies the bytes of each segment once, and looks at each
//! program header once.
//!
//! The crate knows segments and bytes, and nothing of instructions, runs or claims.
#![tactic(auto)]

mod fault;
mod headers;
mod laws;
mod reading;
mod segments;
mod sorting;
mod writing;

pub use fault::ElfFault;
pub use laws::read_of_write;
pub use reading::read;
pub use writing::write;
