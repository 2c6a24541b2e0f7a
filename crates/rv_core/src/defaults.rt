// The default costs.
ghost use Rattle.std.specs.Prelude.{◌≡◌};
ghost use Rattle.rv_core.specs.Table.{table_of, default_table};

use crate::Costs;

/// The costs that hold where no table of costs is given.
pub fn default_costs() -> Costs
    ensures { table_of result ≡ default_table }
{
    Costs {
        fetch_flash: 3,
        fetch_spm: 1,
        alu: 1,
        mul: 3,
        div: 34,
        load: 1,
        store: 1,
        branch: 1,
        branch_taken: 2,
        jump: 2,
        ecall: 10,
        data_flash: 3,
        data_ram: 2,
        data_spm: 1,
        stall: 0,
    }
}
