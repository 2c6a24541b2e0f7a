// Where shares don't fit a flow.
ghost use Rattle.std.specs.Prelude.{◌≡◌, All, IsNone, ◌↔◌, pos};
ghost use Rattle.std.specs.Ordering.{int_eq};
ghost use Rattle.rv_core.specs.Table.{table_of};
ghost use Rattle.code_flow_system.specs.Certificates.{IsPart, PartsAscend};
ghost use Rattle.report_text.specs.Forms.{SharesAscend};
ghost use Rattle.report_shares.specs.Shares.{IsProper, SharesFit, share_sum};
ghost use Rattle.report_shares.specs.Faults.{lesser, least_by, first_by, unheld, unbegun, unequal, share_fault};

use crate::places::{begins, is_held};
use crate::sums::spent_between;
use code_flow_system::{Flow, Move, Part, System};
use report_text::Share;
use rv_core::Costs;

/// The lesser of two addresses, where there are any.
fn lesser(a: Option<u32>, b: Option<u32>) -> Option<u32>
    ensures { result ≡ lesser a b }
{
    match (a, b) {
        (Some(a), Some(b)) => Some(a.min(b)),
        (Some(a), None) => Some(a),
        (None, b) => b,
    }
}

/// The address of a listed move, if it lies in no range.
fn unheld(shares: &[Share], part: &Part) -> Option<u32>
    requires ascending { SharesAscend shares.now }
    requires shares { All IsProper shares.now }
    ensures { result ≡ unheld shares.now part.now }
{
    if is_held(shares, part.at) {
        return None;
    }
    Some(part.at)
}

/// The least listed address that lies in no range.
fn least_unheld(shares: &[Share], parts: &[Part]) -> Option<u32>
    requires ascending { SharesAscend shares.now }
    requires shares { All IsProper shares.now }
    ensures { result ≡ least_by (unheld shares.now) parts.now }
{
    let mut least = None;
    for part in parts {
        least = lesser(least, unheld(shares, part));
    }
    least
}

/// The target of a call, if no function begins there.
fn unbegun(shares: &[Share], step: &Move) -> Option<u32>
    requires ascending { SharesAscend shares.now }
    requires shares { All IsProper shares.now }
    ensures { result ≡ unbegun shares.now step.now }
{
    let _behind = step.behind?;
    let target = step.to?;
    if begins(shares, target) {
        return None;
    }
    Some(target)
}

/// The least target of a call where no function begins.
fn least_unbegun(shares: &[Share], moves: &[Move]) -> Option<u32>
    requires ascending { SharesAscend shares.now }
    requires shares { All IsProper shares.now }
    ensures { result ≡ least_by (unbegun shares.now) moves.now }
{
    let mut least = None;
    for step in moves {
        least = lesser(least, unbegun(shares, step));
    }
    least
}

/// Whether a share's part is its sum.
fn is_sum(system: &System, costs: &Costs, flow: &Flow, share: &Share) -> bool
    requires ascending { PartsAscend flow.now.parts }
    requires parts { All IsPart flow.now.parts }
    requires share { IsProper share.now }
    ensures { result ≡ int_eq share.now.part (pos (share_sum (table_of costs.now) system.now flow.now.parts share.now)) }
{
    match spent_between(system, costs, flow, share.first, share.end) {
        Some(sum) => share.part.unsigned_abs() == sum,
        None => false,
    }
}

/// The first share whose part isn't its sum.
fn first_unequal(system: &System, costs: &Costs, flow: &Flow, shares: &[Share]) -> Option<u32>
    requires ascending { PartsAscend flow.now.parts }
    requires parts { All IsPart flow.now.parts }
    requires shares { All IsProper shares.now }
    ensures { result ≡ first_by (unequal (table_of costs.now) system.now flow.now.parts) shares.now }
{
    for i in 0..shares.len() {
        if !is_sum(system, costs, flow, &shares[i]) {
            return Some(shares[i].first);
        }
    }
    None
}

/// The first fault of shares.
fn first_fault(system: &System, costs: &Costs, flow: &Flow, shares: &[Share]) -> Option<u32>
    requires parts_ascend { PartsAscend flow.now.parts }
    requires parts { All IsPart flow.now.parts }
    requires shares_ascend { SharesAscend shares.now }
    requires shares { All IsProper shares.now }
    ensures { result ≡ share_fault (table_of costs.now) system.now flow.now.parts shares.now }
{
    if let Some(at) = least_unheld(shares, flow.parts.as_slice()) {
        return Some(at);
    }
    if let Some(target) = least_unbegun(shares, system.moves()) {
        return Some(target);
    }
    first_unequal(system, costs, flow, shares)
}

/// Where the shares of a listed flow don't fit it: the least listed address that lies in no range;
/// else the least target of a call that is the first address of no share with a name; else the first
/// address of the first share whose part isn't its sum. It takes no memory.
pub fn share_fault(system: &System, costs: &Costs, flow: &Flow, shares: &[Share]) -> Option<u32>
    requires parts_ascend { PartsAscend flow.now.parts }
    requires parts { All IsPart flow.now.parts }
    requires shares_ascend { SharesAscend shares.now }
    requires shares { All IsProper shares.now }
    ensures fault { result ≡ share_fault (table_of costs.now) system.now flow.now.parts shares.now }
    ensures fit { IsNone result ↔ SharesFit (table_of costs.now) system.now flow.now.parts shares.now }
{
    first_fault(system, costs, flow, shares)
}
