// What items gain.
ghost use Rattle.std.specs.Prelude.{◌≡◌, ◌<◌, ◌≤◌, ◌^◌, pos, ◌-ℤ◌, ◌*ℤ◌, unsigned_abs, Some, map, All, IfOk};
ghost use Rattle.rv_core.specs.Table.{access_cost, table_of};
ghost use Rattle.code_flow_system.specs.Certificates.{PartsAscend};
ghost use Rattle.claims_definition.specs.Movables.{movable_of};
ghost use Rattle.spm_placement.specs.Gains.{HasFewVisits, all_parts, all_visits, cost_here, cost_there, gained, visits};
ghost use Rattle.spm_placement.specs.Sets.{HasSmallGain};

use super::item::Item;
use claims_definition::LaidItem;
use code_flow_lookup::parts_at;
use code_flow_system::{Flow, Part};
use rv_core::{Costs, Region};
use std::alloc::Global;
use wcc_base::Memory;

fn number_of(part: &Part) -> u128
    ensures { result ≡ unsigned_abs part.now.part }
{
    part.part.unsigned_abs()
}

/// The numbers of some moves, added.
fn total(parts: &[Part]) -> u128
    requires { all_parts parts.now < 2 ^ 100 }
    ensures { result ≡ all_parts parts.now }
{
    let mut all = 0;
    for i in 0..parts.len() {
        all += number_of(&parts[i]);
    }
    all
}

/// How often a flow is at an address.
fn visits(parts: &[Part], at: u32) -> u128
    requires ascending { PartsAscend parts.now }
    requires few { visits parts.now at < 2 ^ 100 }
    ensures { result ≡ visits parts.now at }
{
    total(parts_at(parts, at))
}

/// How often a flow is at some addresses.
fn all_visits(parts: &[Part], places: &[u32]) -> u128
    requires ascending { PartsAscend parts.now }
    requires few { all_visits parts.now places.now < 2 ^ 100 }
    ensures { result ≡ all_visits parts.now places.now }
{
    let mut all = 0;
    for i in 0..places.len() {
        all += visits(parts, places[i]);
    }
    all
}

fn access_cost(costs: &Costs, region: Region) -> u32
    ensures value { result ≡ access_cost (table_of costs.now) (Some region) }
    ensures most { result ≤ 1000 }
{
    match region {
        Region::Flash => costs.data_flash,
        Region::Spm => costs.data_spm,
        Region::Ram => costs.data_ram,
    }
}

/// What a fetch or an access costs where an item lies.
fn cost_here(item: &LaidItem, costs: &Costs) -> u32
    ensures value { result ≡ cost_here (table_of costs.now) item.now.code item.now.region }
    ensures most { result ≤ 1000 }
{
    if item.code {
        return costs.fetch_flash;
    }
    access_cost(costs, item.region)
}

/// What it costs in the scratchpad.
fn cost_there(item: &LaidItem, costs: &Costs) -> u32
    ensures value { result ≡ cost_there (table_of costs.now) item.now.code }
    ensures most { result ≤ 1000 }
{
    if item.code {
        return costs.fetch_spm;
    }
    costs.data_spm
}

fn signed(number: u128) -> i128
    requires { number < 2 ^ 100 }
    ensures { result ≡ pos number }
{
    number as i128
}

#[tactic(auto, using(crate::proofs::GainLemmas::difference_small))]
fn difference(left: u32, right: u32) -> i128
    requires left { left ≤ 1000 }
    requires right { right ≤ 1000 }
    ensures value { result ≡ pos left -ℤ pos right }
    ensures small { unsigned_abs result ≤ 1000 }
{
    i128::from(left) - i128::from(right)
}

fn product(left: i128, right: i128) -> i128
    requires left { unsigned_abs left < 2 ^ 100 }
    requires right { unsigned_abs right ≤ 1000 }
    ensures value { result ≡ left *ℤ right }
    ensures small { unsigned_abs result < 2 ^ 110 }
{
    left * right
}

/// What is saved by so many fetches or accesses.
fn saved(often: u128, here: u32, there: u32) -> i128
    requires few { often < 2 ^ 100 }
    requires here { here ≤ 1000 }
    requires there { there ≤ 1000 }
    ensures value { result ≡ pos often *ℤ (pos here -ℤ pos there) }
    ensures small { unsigned_abs result < 2 ^ 110 }
{
    product(signed(often), difference(here, there))
}

fn gained(flow: &Flow, item: &LaidItem, costs: &Costs) -> Item
    requires ascending { PartsAscend flow.now.parts }
    requires few { HasFewVisits flow.now.parts (movable_of item.now) }
    ensures value { result ≡ gained (table_of costs.now) flow.now.parts (movable_of item.now) }
    ensures small { HasSmallGain result }
{
    let often = all_visits(flow.parts.as_slice(), item.at.as_slice());
    Item {
        id: item.id,
        size: item.size,
        gain: saved(often, cost_here(item, costs), cost_there(item, costs)),
    }
}

/// What each of the items of a laid program gains in the scratchpad, by a flow of its system. Where no flow is listed,
/// none gains anything.
pub fn gains(
    alloc: Global,
    items: &[LaidItem],
    flow: &Flow,
    costs: &Costs,
) -> Result<Vec<Item>, Memory>
    requires ascending { PartsAscend flow.now.parts }
    requires few { All (λ i. HasFewVisits flow.now.parts (movable_of i)) items.now }
    ensures values { IfOk result (λ gains. gains.items ≡ map (λ i. gained (table_of costs.now) flow.now.parts (movable_of i)) items.now) }
    ensures small { IfOk result (λ gains. All HasSmallGain gains.items) }
{
    let mut gains = Vec::new(alloc);
    for item in items {
        gains.push(gained(flow, item, costs))?;
    }
    Ok(gains)
}
