// The ELF header and the program headers, as far as loading needs them (ELF32).
ghost use Rattle.std.specs.Prelude.{◌≡◌, ◌+◌, ◌≤◌, length};
ghost use Rattle.elf_image.specs.Headers.{half_at, word_at, header_of, program_header_at};

/// Fields of the ELF header.
#[derive(Clone, Copy)]
pub struct Header {
    /// The type of the file.
    pub kind: u16,
    pub machine: u16,
    /// The address of the first instruction.
    pub entry: u32,
    /// Where the program headers begin in the file.
    pub table: u32,
    /// The size of a program header.
    pub entry_size: u16,
    /// How many program headers there are.
    pub count: u16,
}

/// Fields of a program header.
#[derive(Clone, Copy)]
pub struct ProgramHeader {
    /// The type of the segment.
    pub kind: u32,
    /// Where its bytes begin in the file.
    pub offset: u32,
    pub address: u32,
    /// How many bytes it has in the file.
    pub file_size: u32,
    /// How many bytes it takes in memory.
    pub memory_size: u32,
    pub flags: u32,
}

// The number of 16 bits at a place.
fn read_half(bytes: &[u8], at: usize) -> u16
    requires { at + 2 ≤ length bytes.now }
    ensures { result ≡ half_at bytes.now at }
{
    u16::from_le_bytes([bytes[at], bytes[at + 1]])
}

// The number of 32 bits at a place.
fn read_word(bytes: &[u8], at: usize) -> u32
    requires { at + 4 ≤ length bytes.now }
    ensures { result ≡ word_at bytes.now at }
{
    u32::from_le_bytes([bytes[at], bytes[at + 1], bytes[at + 2], bytes[at + 3]])
}

/// The ELF header at the front of a file.
pub fn read_header(bytes: &[u8]) -> Header
    requires { 52 ≤ length bytes.now }
    ensures { result ≡ header_of bytes.now }
{
    Header {
        kind: read_half(bytes, 16),
        machine: read_half(bytes, 18),
        entry: read_word(bytes, 24),
        table: read_word(bytes, 28),
        entry_size: read_half(bytes, 42),
        count: read_half(bytes, 44),
    }
}

/// The program header at a place of a file.
pub fn read_program_header(bytes: &[u8], at: usize) -> ProgramHeader
    requires { at + 32 ≤ length bytes.now }
    ensures { result ≡ program_header_at bytes.now at }
{
    ProgramHeader {
        kind: read_word(bytes, at),
        offset: read_word(bytes, at + 4),
        address: read_word(bytes, at + 8),
        file_size: read_word(bytes, at + 16),
        memory_size: read_word(bytes, at + 20),
        flags: read_word(bytes, at + 24),
    }
}
