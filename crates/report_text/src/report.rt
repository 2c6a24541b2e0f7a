// Reports.

use crate::entries::{CopyLine, Share};
use code_flow_answer::{Column, Kind};
use code_flow_system::{Cert, Claims};
use std::marker::Model;
use wcc_base::Items;

/// A report on an image: what is claimed of its runs, and a certificate of its bound.
///
/// Version 1 has no shares. The report's cycles are those of its certificate.
#[derive(Drop)]
pub struct Report {
    pub version: u8,
    pub kind: Kind,
    /// The functions of the source, then its markers, in its order.
    pub names: Items<CopyLine>,
    pub claims: Claims,
    pub columns: Items<Column>,
    pub cert: Cert,
    pub shares: Items<Share>,
}

impl Model for Report {
    ghost use Rattle.report_text.specs.Reports.{Report, report_of};

    ghost Value = { Report };

    ghost use Rattle.report_text.specs.Forms.{IsReport};

    ghost view = { λ r. report_of r.version r.kind r.names r.claims r.columns r.cert r.shares };

    ghost invariant = { λ r. IsReport (report_of r.version r.kind r.names r.claims r.columns r.cert r.shares) };
}
