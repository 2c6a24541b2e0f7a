// Marks of certificates.
ghost use Rattle.std.specs.Prelude.{◌≡◌};
ghost use Rattle.path_fact_columns.specs.OptimumLaws.{greatest};
ghost use Rattle.path_enum.specs.Marks.{empty, lesser, least_of};

use code_flow_system::{Cert, Flow, Mark, Part};
use wcc_base::Items;

/// A certificate that says that there is no flow.
pub(crate) fn empty(cert: Cert) -> Cert
    ensures { result ≡ empty cert }
{
    let mut cert = cert;
    cert.mark = Mark::Empty;
    cert
}

/// A certificate with a flow of its value.
pub(crate) fn greatest(cert: Cert, unit: u64, parts: Vec<Part>) -> Cert
    ensures { result ≡ greatest cert unit parts.items }
{
    let mut cert = cert;
    cert.mark = Mark::Greatest;
    cert.flow = Flow {
        unit,
        parts: Items::new(parts),
    };
    cert
}

/// The certificate of the lesser bound.
pub(crate) fn lesser(least: Cert, other: Cert) -> Cert
    ensures { result ≡ lesser least other }
{
    if other.cycles < least.cycles {
        drop(least);
        return other;
    }
    drop(other);
    least
}

/// The certificate of the lesser bound, if there is another one.
pub(crate) fn least_of(least: Cert, other: Option<Cert>) -> Cert
    ensures { result ≡ least_of least other }
{
    match other {
        None => least,
        Some(cert) => lesser(least, cert),
    }
}
