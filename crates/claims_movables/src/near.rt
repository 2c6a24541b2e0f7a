// The accesses of arrays near x3 or beside x7.
ghost use Rattle.std.specs.Prelude.{◌≡◌, map, IfOk};
ghost use Rattle.low_ir.specs.View.{base_of, block_of, instr_of};
ghost use Rattle.claims_movables.specs.Near.{base_near, blocks_near, code_near, instr_near};

use super::numbers::add;
use asm_data::Data;
use asm_emission::is_reached;
use low_ir::{Base, Block, Instr};
use wcc_base::Memory;

/// 1 where one instruction reaches an array, so that its address needs none; else 0.
fn base_near(memory: &Data, base: Base, displacement: u32) -> u32
    ensures { result ≡ base_near memory.now (base_of base) displacement }
{
    match base {
        Base::Object(object) => {
            let at = u64::from(memory.object_at(object)) + u64::from(displacement);
            if is_reached(memory.second(), at % 0x1_0000_0000) {
                1
            } else {
                0
            }
        }
        Base::Pointer { .. } => 0,
    }
}

fn instr_near(memory: &Data, instr: &Instr) -> u32
    ensures { result ≡ instr_near memory.now (instr_of instr.now) }
{
    match instr {
        Instr::Point { address, .. } => base_near(memory, address.base, address.displacement),
        Instr::Load { address, .. } => base_near(memory, address.base, address.displacement),
        Instr::Store { address, .. } => base_near(memory, address.base, address.displacement),
        Instr::Set { .. } => 0,
        Instr::Operate { .. } => 0,
        Instr::Put { .. } => 0,
        Instr::Get { .. } => 0,
        Instr::Call { .. } => 0,
    }
}

fn code_near(memory: &Data, code: &[Instr]) -> Result<u32, Memory>
    ensures { IfOk result (λ count. count ≡ code_near memory.now (map instr_of code.now)) }
{
    let mut count = 0;
    for instr in code {
        count = add(count, instr_near(memory, instr))?;
    }
    Ok(count)
}

/// How many accesses of blocks need no instruction for an array's address.
pub fn blocks_near(memory: &Data, blocks: &[Block]) -> Result<u32, Memory>
    ensures { IfOk result (λ count. count ≡ blocks_near memory.now (map block_of blocks.now)) }
{
    let mut count = 0;
    for block in blocks {
        count = add(count, code_near(memory, block.code.as_slice())?)?;
    }
    Ok(count)
}
