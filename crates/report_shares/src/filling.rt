// Shares that fit by their sums.
ghost use Rattle.std.specs.Prelude.{◌≡◌, ◌^◌, pos, ◌<ℤ◌, All, map};
ghost use Rattle.rv_core.specs.Table.{table_of};
ghost use Rattle.code_flow_system.specs.Flows.{value};
ghost use Rattle.code_flow_system.specs.Certificates.{listed, IsPart, PartsAscend};
ghost use Rattle.report_shares.specs.Shares.{share_sum, with_sum};

use crate::sums::spent_between;
use code_flow_system::{Flow, System};
use report_text::Share;
use rv_core::Costs;

/// What the listed moves of the addresses from the first up to the end cost.
fn sum_between(system: &System, costs: &Costs, flow: &Flow, share: &Share) -> i128
    requires ascending { PartsAscend flow.now.parts }
    requires parts { All IsPart flow.now.parts }
    requires small { value (table_of costs.now) system.now (listed flow.now.parts) <ℤ pos (2 ^ 120) }
    ensures { result ≡ pos (share_sum (table_of costs.now) system.now flow.now.parts share.now) }
{
    match spent_between(system, costs, flow, share.first, share.end) {
        Some(sum) => sum as i128,
        None => 0,
    }
}

/// Makes the part of a share its sum.
fn fill(system: &System, costs: &Costs, flow: &Flow, share: &mut Share)
    requires ascending { PartsAscend flow.now.parts }
    requires parts { All IsPart flow.now.parts }
    requires small { value (table_of costs.now) system.now (listed flow.now.parts) <ℤ pos (2 ^ 120) }
    ensures { share.new ≡ with_sum (table_of costs.now) system.now flow.now.parts share.old }
{
    share.part = sum_between(system, costs, flow, share);
}

/// Makes the part of each share its sum, over the flow's unit. It takes no memory.
pub fn fill_shares(system: &System, costs: &Costs, flow: &Flow, shares: &mut [Share])
    requires ascending { PartsAscend flow.now.parts }
    requires parts { All IsPart flow.now.parts }
    requires small { value (table_of costs.now) system.now (listed flow.now.parts) <ℤ pos (2 ^ 120) }
    ensures { shares.new ≡ map (with_sum (table_of costs.now) system.now flow.now.parts) shares.old }
{
    for i in 0..shares.len() {
        fill(system, costs, flow, &mut shares[i]);
    }
}
