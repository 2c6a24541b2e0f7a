// The answer at multipliers.
ghost use Rattle.std.specs.Prelude.{◌≡◌, ◌*◌, ◌<◌, ◌^◌, ◌<ℤ◌, ◌≤ℤ◌, pos, true, false, length, Some, None, IfOk, if◌then◌else◌};
ghost use Rattle.std.specs.Int.RustNames.{int_lt};
ghost use Rattle.rv_core.specs.Table.{table_of};
ghost use Rattle.path_cert.specs.Certificates.{entry_worth};
ghost use Rattle.path_cert.specs.Priced.{fact_price, fact_low};
ghost use Rattle.path_fact_walks.specs.Plain.{AreAddable, cert_by, values_in};
ghost use Rattle.path_conditions.specs.Walking.{IsSearchable};
ghost use Rattle.path_fact_columns.specs.Conditions.{AreNarrow};
ghost use Rattle.path_fact_columns.specs.Answers.{answer_of};
ghost use Rattle.path_fact_columns.specs.Laws.{IsAnswer};

use code_flow_system::{Cert, Part, Span, System};
use path_fact_walks::{Multiplied, fact_cert, fact_flow, settle_facts};
use path_walks::{Settled, place_of};
use std::alloc::{AllocError, Global};
use wcc_base::Items;

/// What the walks find at multipliers.
#[derive(Drop)]
pub struct Answer {
    /// A bound of all flows, if it is below 2^60.
    pub cert: Option<Cert>,
    /// The entry's worth.
    pub worth: i128,
    /// The moves of a best flow, none where the worth is negative.
    pub parts: Items<Part>,
}

/// Whether there is no flow, by the worth of the entry.
fn is_negative(worth: i128) -> bool
    ensures negative { result ≡ true → worth <ℤ pos 0 }
    ensures other { result ≡ false → pos 0 ≤ℤ worth }
{
    worth < 0
}

/// The worth of the entry.
fn entry_worth(system: &System, settled: &Settled) -> i128
    requires { length system.now.moves < length settled.now.worths }
    ensures { result ≡ entry_worth system.now (values_in settled.now) }
{
    settled.worths.as_slice()[place_of(system.moves(), system.entry())]
}

/// The certificate of what the walks found, if its bound is below 2^60.
fn certificate(
    alloc: Global,
    multiplied: Multiplied,
    settled: &Settled,
    worth: i128,
) -> Result<Option<Cert>, AllocError>
    requires able { worth <ℤ pos (multiplied.scale * 2 ^ 60) → AreAddable (table_of multiplied.costs.now) multiplied.system.now multiplied.scale multiplied.facts.now (values_in settled.now) }
    ensures { IfOk result (λ o. o ≡ if int_lt worth (pos (multiplied.entry.scale * 2 ^ 60)) then Some (cert_by multiplied.entry.system.now (fact_price (table_of multiplied.entry.costs.now) multiplied.entry.system.now multiplied.entry.scale multiplied.entry.facts.now) multiplied.entry.scale multiplied.entry.facts.now (values_in settled.now)) else None) }
{
    if worth < i128::from(multiplied.scale) * (1 << 60) {
        let cert = fact_cert(alloc, multiplied, settled)?;
        return Ok(Some(cert));
    }
    Ok(None)
}

/// The answer at multipliers of the facts.
pub fn answer_at(
    alloc: Global,
    multiplied: Multiplied,
    spans: &[Span],
) -> Result<Answer, AllocError>
    requires searchable { IsSearchable (table_of multiplied.costs.now) multiplied.system.now multiplied.shapes.now spans.now }
    requires scale { 0 < multiplied.scale }
    requires narrow { AreNarrow multiplied.system.now multiplied.scale multiplied.facts.now }
    requires low { multiplied.low ≡ fact_low multiplied.scale multiplied.facts.now }
    ensures value { IfOk result (λ a. a ≡ answer_of (table_of multiplied.entry.costs.now) multiplied.entry.system.now multiplied.entry.shapes.now spans.now multiplied.entry.scale multiplied.entry.facts.now) }
    ensures best { IfOk result (IsAnswer (table_of multiplied.entry.costs.now) multiplied.entry.system.now multiplied.entry.scale multiplied.entry.facts.now) }
{
    let settled = settle_facts(alloc, multiplied, spans)?;
    let worth = entry_worth(multiplied.system, &settled);
    let cert = certificate(alloc, multiplied, &settled, worth)?;
    if is_negative(worth) {
        return Ok(Answer {
            cert,
            worth,
            parts: Items::new(Vec::new(alloc)),
        });
    }
    let parts = fact_flow(alloc, multiplied, spans, &settled)?;
    Ok(Answer {
        cert,
        worth,
        parts: Items::new(parts),
    })
}
