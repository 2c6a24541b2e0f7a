// What items gain.
ghost use Rattle.std.specs.Prelude.{◌≡◌, map, All, IfOk};
ghost use Rattle.rv_core.specs.Table.{table_of};
ghost use Rattle.code_flow_system.specs.Certificates.{PartsAscend};
ghost use Rattle.claims_definition.specs.declared.item.LaidItem.{LaidItem};
ghost use Rattle.claims_definition.specs.Movables.{movable_of};
ghost use Rattle.spm_placement.specs.Gains.{HasFewVisits, gained};
ghost use Rattle.spm_placement.specs.Sets.{HasSmallGain};

use claims_definition::LaidItem;
use report_text::Report;
use rv_core::Costs;
use spm_placement::{Item, gains};
use std::alloc::Global;
use wcc_base::Memory;

/// What the items of a laid program gain, by the flow that the certificate of a report lists.
pub fn gains_by(
    alloc: Global,
    items: &[LaidItem],
    report: &Report,
    costs: &Costs,
) -> Result<Vec<Item>, Memory>
    requires ascending { PartsAscend report.now.cert.flow.parts }
    requires few { All (λ (i : LaidItem). HasFewVisits report.now.cert.flow.parts (movable_of i)) items.now }
    ensures values { IfOk result (λ gains. gains.items ≡ map (λ (i : LaidItem). gained (table_of costs.now) report.now.cert.flow.parts (movable_of i)) items.now) }
    ensures small { IfOk result (λ gains. All HasSmallGain gains.items) }
{
    gains(alloc, items, &report.cert.flow, costs)
}
