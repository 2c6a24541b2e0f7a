// The certificate of walks that pay for facts.
ghost use Rattle.std.specs.Prelude.{◌≡◌, ◌<◌, ◌^◌, IfOk};
ghost use Rattle.rv_core.specs.Table.{table_of};
ghost use Rattle.code_flow_system.specs.Certificates.{whole_part};
ghost use Rattle.path_places.specs.Duals.{both_of};
ghost use Rattle.path_cert.specs.Priced.{fact_price};
ghost use Rattle.path_fact_walks.specs.Plain.{plain_with, cert_by, values_in, AreAddable};

use crate::pricing::Multiplied;
use code_flow_lookup::potential;
use code_flow_system::{Cert, Flow, Mark};
use loop_walks::Pair;
use path_values::{loop_multipliers, never_multipliers, potentials};
use path_walks::Settled;
use std::alloc::{AllocError, Global};
use wcc_base::Items;

/// Multipliers of loops as a certificate has them.
fn both_of(alloc: Global, pairs: &[Pair]) -> Result<Vec<(i128, i128)>, AllocError>
    ensures { IfOk result (λ v. v.items ≡ both_of pairs.now) }
{
    let mut both = Vec::new(alloc);
    for i in 0..pairs.len() {
        both.push((pairs[i].least, pairs[i].most))?;
    }
    Ok(both)
}

/// The certificate with these potentials and multipliers of loops and facts, and none of never claims.
fn plain(
    alloc: Global,
    multiplied: Multiplied,
    potentials: Vec<(u32, i128)>,
    pairs: &[Pair],
) -> Result<Cert, AllocError>
    ensures { IfOk result (λ c. c ≡ plain_with multiplied.entry.system.now.claims multiplied.entry.scale multiplied.entry.facts.now potentials.items pairs.now) }
{
    let nevers = vec![in alloc; 0; multiplied.system.claims().nevers().len()]?;
    let loops = both_of(alloc, pairs)?;
    let facts = Vec::from_slice(alloc, multiplied.facts)?;
    Ok(Cert {
        cycles: 0,
        mark: Mark::Neither,
        scale: multiplied.scale,
        potentials: Items::new(potentials),
        nevers: Items::new(nevers),
        loops: Items::new(loops),
        facts: Items::new(facts),
        flow: Flow {
            unit: 0,
            parts: Items::new(Vec::new(alloc)),
        },
    })
}

/// A worth over a scale, as whole cycles.
fn cycles(worth: i128, scale: u64) -> u64
    requires scale { 0 < scale }
    requires small { whole_part worth scale < 2 ^ 63 }
    ensures { result ≡ whole_part worth scale }
{
    if worth < 0 {
        return 0;
    }
    (worth / i128::from(scale)) as u64
}

/// The potentials and multipliers of what walks found, as a certificate with these multipliers of the facts.
pub fn fact_cert(
    alloc: Global,
    multiplied: Multiplied,
    settled: &Settled,
) -> Result<Cert, AllocError>
    requires { AreAddable (table_of multiplied.costs.now) multiplied.system.now multiplied.scale multiplied.facts.now (values_in settled.now) }
    ensures { IfOk result (λ c. c ≡ cert_by multiplied.entry.system.now (fact_price (table_of multiplied.entry.costs.now) multiplied.entry.system.now multiplied.entry.scale multiplied.entry.facts.now) multiplied.entry.scale multiplied.entry.facts.now (values_in settled.now)) }
{
    let system = multiplied.system;
    let costs = multiplied.costs;
    let pairs = settled.pairs.as_slice();
    let terms = potentials(alloc, system.moves(), settled.worths.as_slice())?;
    let mut cert = plain(alloc, multiplied, terms, pairs)?;
    let nevers = never_multipliers(alloc, system, costs, &cert)?.unwrap();
    let loops = loop_multipliers(alloc, system, costs, &cert, pairs)?.unwrap();
    let worth = potential(cert.potentials.as_slice(), system.entry());
    cert.cycles = cycles(worth, multiplied.scale);
    cert.nevers = Items::new(nevers);
    cert.loops = Items::new(loops);
    Ok(cert)
}
