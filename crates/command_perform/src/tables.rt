// The costs of a command: those of the table that it names, or the default ones.
ghost use Rattle.std.specs.Prelude.{◌≡◌, ◌⊎◌, ◌+◌, [], ◌∷◌, length, MatchResult};
ghost use Rattle.wcc_base.specs.declared.status.Status.TheVariants as status;
ghost use Rattle.rv_core.specs.Table.{table_of};
ghost use Rattle.cost_table.specs.Tables.{IsTable};
ghost use Rattle.command_words.specs.Held.{table_name};
ghost use Rattle.command_perform.specs.Ends.{IsRefusal};
ghost use Rattle.command_perform.specs.Tables.{table_status, wanted_table, RefusesTable, Charged, IsUncharged};

use crate::contents::{one, three, two};
use cost_table::{TableFault, read};
use rv_core::{Costs, default_costs};
use std::alloc::Global;
use wcc_base::{Items, Status};

// The code of a refusal of a table.
const NO_TABLE: u8 = 9;

// The status of a table that is refused.
fn table_status(fault: TableFault) -> Status
    ensures { result ≡ table_status fault }
{
    let (detail, at) = match fault {
        TableFault::NotToml => (1, 0),
        TableFault::Key { key } => (2, u32::from(key)),
        TableFault::Number { key } => (3, u32::from(key)),
        TableFault::Memory => return Status::Memory,
    };
    Status::Refused {
        code: NO_TABLE,
        detail,
        at,
    }
}

// The costs of a table's contents.
fn costs_of(alloc: Global, table: &[u8]) -> Result<Costs, Status>
    ensures { MatchResult result (λ c. IsTable table.now (table_of c)) (λ s. (s ≡ status.Memory) ⊎ (IsRefusal s × RefusesTable table.now s)) }
{
    match read(alloc, table) {
        Ok(costs) => Ok(costs),
        Err(fault) => Err(table_status(fault)),
    }
}

/// The contents of one file, and the costs: those of the table behind it where one is named, or the
/// default ones.
pub fn charged_one(
    alloc: Global,
    table: Option<&str>,
    contents: Vec<Items<u8>>,
) -> Result<(Items<u8>, Costs), Status>
    requires { length contents.items ≡ 1 + length (wanted_table (table_name table)) }
    ensures { MatchResult result (λ r. Charged contents.items (r.0 ∷ []) (table_of r.1)) (λ s. (s ≡ status.Memory) ⊎ (IsRefusal s × IsUncharged 1 contents.items s)) }
{
    match table {
        Some(_) => {
            let (file, table) = two(contents);
            match costs_of(alloc, table.as_slice()) {
                Ok(costs) => Ok((file, costs)),
                Err(status) => Err(status),
            }
        }
        None => Ok((one(contents), default_costs())),
    }
}

/// The contents of two files, and the costs.
pub fn charged_two(
    alloc: Global,
    table: Option<&str>,
    contents: Vec<Items<u8>>,
) -> Result<(Items<u8>, Items<u8>, Costs), Status>
    requires { length contents.items ≡ 2 + length (wanted_table (table_name table)) }
    ensures { MatchResult result (λ r. Charged contents.items (r.0 ∷ r.1 ∷ []) (table_of r.2)) (λ s. (s ≡ status.Memory) ⊎ (IsRefusal s × IsUncharged 2 contents.items s)) }
{
    match table {
        Some(_) => {
            let (first, second, table) = three(contents);
            match costs_of(alloc, table.as_slice()) {
                Ok(costs) => Ok((first, second, costs)),
                Err(status) => Err(status),
            }
        }
        None => {
            let (first, second) = two(contents);
            Ok((first, second, default_costs()))
        }
    }
}
