// A certificate before it is marked.
ghost use Rattle.std.specs.Prelude.{◌≡◌, IfOk};
ghost use Rattle.rv_core.specs.Table.{table_of};
ghost use Rattle.code_flow_system.specs.Flows.{price};
ghost use Rattle.path_search.specs.Unmarked.{AreAddable, unmarked_of, values_in};

use code_flow_system::{Cert, System};
use path_values::{loop_multipliers, never_multipliers, plain, potentials};
use path_walks::Settled;
use rv_core::Costs;
use std::alloc::{AllocError, Global};
use wcc_base::Items;

/// The potentials and multipliers of what walks found, as a certificate without a mark.
pub fn unmarked_cert(
    alloc: Global,
    system: &System,
    costs: &Costs,
    settled: &Settled,
) -> Result<Cert, AllocError>
    requires { AreAddable (table_of costs.now) system.now (values_in settled.now) }
    ensures { IfOk result (λ c. c ≡ unmarked_of system.now (price (table_of costs.now) system.now) (values_in settled.now)) }
{
    let pairs = settled.pairs.as_slice();
    let terms = potentials(alloc, system.moves(), settled.worths.as_slice())?;
    let mut cert = plain(alloc, system, terms, pairs)?;
    let nevers = never_multipliers(alloc, system, costs, &cert)?.unwrap();
    let loops = loop_multipliers(alloc, system, costs, &cert, pairs)?.unwrap();
    cert.nevers = Items::new(nevers);
    cert.loops = Items::new(loops);
    Ok(cert)
}
