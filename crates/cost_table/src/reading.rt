// A table of costs, read from its bytes.
ghost use Rattle.std.specs.Prelude.{◌≡◌, ◌⊎◌, MatchResult};
ghost use Rattle.rv_core.specs.Table.{table_of};
ghost use Rattle.cost_table.specs.declared.faults.TableFault.TheVariants as fault;
ghost use Rattle.cost_table.specs.Tables.{IsTable, IsRefused};

use crate::faults::{TableFault, first_fault};
use crate::numbers::costs_in;
use rv_core::Costs;
use std::alloc::Global;

/// The costs of a machine, of the bytes of a table.
pub fn read(alloc: Global, bytes: &[u8]) -> Result<Costs, TableFault>
    ensures { MatchResult result (λ c. IsTable bytes.now (table_of c)) (λ f. (f ≡ fault.Memory) ⊎ IsRefused bytes.now f) }
{
    match toml::table_from_slice(alloc, bytes) {
        Ok(table) => match first_fault(&table) {
            Some(fault) => Err(fault),
            None => Ok(costs_in(&table)),
        },
        Err(error) => {
            if error.is_memory() {
                return Err(TableFault::Memory);
            }
            Err(TableFault::NotToml)
        }
    }
}
