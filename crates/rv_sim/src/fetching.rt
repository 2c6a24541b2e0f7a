// Words of code.
ghost use Rattle.std.specs.Prelude.{◌≡◌, ◌%◌};
ghost use Rattle.rv_core.specs.declared.row.Width.{Width};
ghost use Rattle.rv_core.specs.Memory.{read_from};
ghost use Rattle.rv_sim.specs.Lookups.{Fetches};

use crate::block::Block;
use crate::blocks::Fetched;

/// The instruction at an aligned address, where a whole word of code stands.
pub fn fetch_from(blocks: &[Block], pc: u32) -> Option<Fetched>
    requires { pc % 4 ≡ 0 }
    ensures { Fetches (read_from (λ b. b.exec) Width.Word blocks.now pc) pc result }
{
    for block in blocks {
        if block.is_executed() && block.holds(pc, 4) {
            let instr = block.instruction(pc);
            let region = block.region();
            return Some(Fetched { instr, region });
        }
    }
    None
}
