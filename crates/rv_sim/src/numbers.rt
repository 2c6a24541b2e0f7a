// Numbers in memory, the low byte first.
ghost use Rattle.std.specs.Prelude.{◌≡◌, ◌+◌, ◌*◌, ◌^◌, ◌<◌, ◌≤◌, length};
ghost use Rattle.rv_core.specs.Arithmetic.{byte_count};
ghost use Rattle.rv_core.specs.Memory.{number_at, with_number};

use rv_core::Width;

/// The number that stands at a place of some bytes.
#[tactic(auto, unfolding(rv_core::specs::Memory::number_at))]
pub fn number_at(width: Width, bytes: &[u8], place: usize) -> u32
    requires { place + byte_count width ≤ length bytes.now }
    ensures value { result ≡ number_at width bytes.now place }
    ensures small { result < 2 ^ (8 * byte_count width) }
{
    match width {
        Width::Byte => u32::from(bytes[place]),
        Width::Half => u32::from(bytes[place]) + 0x100 * u32::from(bytes[place + 1]),
        Width::Word => {
            let low = u32::from(bytes[place]) + 0x100 * u32::from(bytes[place + 1]);
            let third = 0x1_0000 * u32::from(bytes[place + 2]);
            low + third + 0x100_0000 * u32::from(bytes[place + 3])
        }
    }
}

/// Puts the low bytes of a word at a place of some bytes.
#[tactic(auto, unfolding(rv_core::specs::Memory::with_number))]
pub fn put_number(width: Width, bytes: &mut [u8], place: usize, word: u32)
    requires { place + byte_count width ≤ length bytes.old }
    ensures { bytes.new ≡ with_number width bytes.old place word }
{
    match width {
        Width::Byte => {
            bytes[place] = (word % 0x100) as u8;
        }
        Width::Half => {
            bytes[place] = (word % 0x100) as u8;
            bytes[place + 1] = (word / 0x100 % 0x100) as u8;
        }
        Width::Word => {
            bytes[place] = (word % 0x100) as u8;
            bytes[place + 1] = (word / 0x100 % 0x100) as u8;
            bytes[place + 2] = (word / 0x1_0000 % 0x100) as u8;
            bytes[place + 3] = (word / 0x100_0000 % 0x100) as u8;
        }
    }
}
