// Whether a listed flow has the value that a certificate bounds.
ghost use Rattle.std.specs.Prelude.{◌≡◌, ◌<◌, ◌≤◌, ◌^◌, true, All};
ghost use Rattle.rv_core.specs.Table.{table_of};
ghost use Rattle.code_flow_system.specs.declared.cert.Mark.TheVariants as marks;
ghost use Rattle.code_flow_system.specs.Certificates.{PartsAscend, IsPart, IsInForm, Accepts};
ghost use Rattle.path_guessed_flows.specs.Tests.{greatest, plain, IsTested};

use code_flow_system::{Cert, Flow, Mark, Part, System};
use dual_check::{Verdict, check};
use rv_core::Costs;
use std::alloc::Global;
use wcc_base::Items;

/// What a test of a flow says.
#[derive(Drop)]
pub enum Outcome {
    /// The certificate with the flow: its bound is the greatest value of a flow.
    Greatest(Cert),
    /// The certificate as it was.
    Bound(Cert),
}

/// The certificate with a flow.
fn greatest(cert: Cert, unit: u64, parts: Vec<Part>) -> Cert
    ensures { result ≡ greatest cert unit parts.items }
{
    let mut cert = cert;
    cert.mark = Mark::Greatest;
    cert.flow = Flow {
        unit,
        parts: Items::new(parts),
    };
    cert
}

/// The certificate without one.
fn plain(alloc: Global, cert: Cert) -> Cert
    ensures { result ≡ plain cert }
{
    let mut cert = cert;
    cert.mark = Mark::Neither;
    cert.flow = Flow {
        unit: 0,
        parts: Items::new(Vec::new(alloc)),
    };
    cert
}

/// Whether a certificate is accepted.
fn is_accepted(system: &System, costs: &Costs, cert: &Cert) -> bool
    requires { IsInForm system.now.claims cert.now }
    ensures { result ≡ true → Accepts (table_of costs.now) system.now cert.now }
{
    match check(system, costs, cert) {
        Verdict::Yes {
            cycles: _,
            greatest: _,
        } => true,
        Verdict::No { row: _ } => false,
    }
}

/// The certificate with a flow, where that has the value that it bounds, and keeps all claims; else as it was.
pub fn tested(
    alloc: Global,
    system: &System,
    costs: &Costs,
    cert: Cert,
    unit: u64,
    parts: Vec<Part>,
) -> Outcome
    requires form { IsInForm system.now.claims cert }
    requires mark { cert.mark ≡ marks.Neither }
    requires some { 0 < unit }
    requires small { unit ≤ 2 ^ 48 }
    requires ascending { PartsAscend parts.items }
    requires parts { All IsPart parts.items }
    ensures { IsTested (table_of costs.now) system.now cert result }
{
    let with_flow = greatest(cert, unit, parts);
    if is_accepted(system, costs, &with_flow) {
        return Outcome::Greatest(with_flow);
    }
    Outcome::Bound(plain(alloc, with_flow))
}
