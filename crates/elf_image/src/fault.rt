// Why the bytes of a file are no image.
use thiserror::Error;
use wcc_base::Memory;

/// Why the bytes of a file are no image.
#[derive(Clone, Copy, Debug, Error)]
pub enum ElfFault {
    /// The file doesn't begin with an ELF header of the 32-bit class, little-endian and of
    /// version 1; or there are program headers, and they haven't 32 bytes each or pass the end.
    #[error("not a 32-bit little-endian ELF file")]
    NotElf,
    /// The file is no executable (type 2), or not for RISC-V (machine 243).
    #[error("not an executable for RISC-V")]
    WrongMachine,
    /// The first program header of type LOAD of which one of these holds: its bytes pass the end
    /// of the file, or are more than its size in memory; its span isn't within one region; it may
    /// be both written and executed, executed in RAM, or written in flash; it shares an address
    /// with an earlier one; or it is the seventeenth. A span without addresses lies nowhere.
    #[error("program header {index}: the segment can't be loaded")]
    BadSegment {
        /// Its place among all program headers, from 0.
        index: u32,
    },
    /// Memory ran out.
    #[error("memory ran out")]
    Memory,
}

impl From<Memory> for ElfFault {
    ghost use Rattle.std.specs.Prelude.{◌≡◌};
    ghost use Rattle.elf_image.specs.declared.fault.ElfFault.TheVariants as Fault;

    ghost from_gives = { λ _ e. e ≡ Fault.Memory };

    fn from(_: Memory) -> Self {
        ElfFault::Memory
    }
}
