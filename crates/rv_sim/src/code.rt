// The instructions of a block, decoded once.
ghost use Rattle.std.specs.Prelude.{◌+◌, ◌^◌, ◌≤◌, length, IfOk};
ghost use Rattle.rv_sim.specs.Blocks.{AreDecoded};

use crate::numbers::number_at;
use rv_core::{Instr, Width, decode};
use std::alloc::Global;
use wcc_base::Memory;

/// The instructions of the aligned words of these bytes, which stand at an address.
pub fn decoded(alloc: Global, at: u32, bytes: &[u8]) -> Result<Vec<Option<Instr>>, Memory>
    requires { at + length bytes.now ≤ 2 ^ 32 }
    ensures { IfOk result (λ code. AreDecoded at bytes.now code.items) }
{
    let first = (at as usize + 3) / 4;
    let end = (at as usize + bytes.len()) / 4;
    let mut code = Vec::new(alloc);
    for word in first..end {
        let place = 4 * word - at as usize;
        code.push(decode(number_at(Width::Word, bytes, place)))?;
    }
    Ok(code)
}
