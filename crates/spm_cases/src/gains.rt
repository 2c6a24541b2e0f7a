// What an item gains.
ghost use Rattle.std.specs.Prelude.{◌≡◌, ◌<◌, ◌^◌, [], ◌∷◌, All, IfOk};
ghost use Rattle.code_flow_system.specs.Certificates.{PartsAscend};
ghost use Rattle.claims_definition.specs.Movables.{movable_of};
ghost use Rattle.spm_placement.specs.Gains.{HasFewVisits, all_visits};

use claims_definition::LaidItem;
use code_flow_system::{Flow, Part};
use rv_core::{Region, default_costs};
use spm_placement::gains;
use std::alloc::Global;
use wcc_base::{Items, Memory};

fn region_of(word: &str) -> Region {
    match word {
        "spm" => Region::Spm,
        "ram" => Region::Ram,
        _ => Region::Flash,
    }
}

// An item of the addresses 0 and 4.
fn item_of(alloc: Global, code: bool, region: Region) -> Result<LaidItem, Memory>
    ensures { IfOk result (λ i. i.at ≡ 0 ∷ 4 ∷ []) }
{
    let at = Vec::from_slice(alloc, &[0, 4])?;
    Ok(LaidItem {
        id: 7,
        size: 8,
        code,
        region,
        at: Items::new(at),
    })
}

// A flow that is so often at the address 4.
fn flow_of(alloc: Global, often: u32) -> Result<Flow, Memory>
    ensures ascending { IfOk result (λ f. PartsAscend f.parts) }
    ensures few { IfOk result (λ f. all_visits f.parts (0 ∷ 4 ∷ []) < 2 ^ 100) }
{
    let mut parts = Vec::new(alloc);
    parts.push(Part {
        at: 4,
        number: 0,
        part: i128::from(often),
    })?;
    Ok(Flow {
        unit: 1,
        parts: Items::new(parts),
    })
}

// An item alone.
fn items_of(alloc: Global, code: bool, region: Region, flow: &Flow) -> Result<Vec<LaidItem>, Memory>
    requires { all_visits flow.now.parts (0 ∷ 4 ∷ []) < 2 ^ 100 }
    ensures { IfOk result (λ v. All (λ i. HasFewVisits flow.now.parts (movable_of i)) v.items) }
{
    let item = item_of(alloc, code, region)?;
    let mut items = Vec::new(alloc);
    items.push(item)?;
    Ok(items)
}

pub fn gain_answer(alloc: Global, line: &str) -> Result<String, Memory> {
    let Some((kind, rest)) = line.split_once(' ') else {
        return Ok(String::from_str(alloc, "no item")?);
    };
    let Some((region, part)) = rest.split_once(' ') else {
        return Ok(String::from_str(alloc, "no item")?);
    };
    let flow = flow_of(alloc, part.parse().unwrap_or(0))?;
    let items = items_of(alloc, kind == "code", region_of(region), &flow)?;
    let gained = gains(alloc, &items, &flow, &default_costs())?;
    match gained.first() {
        Some(item) => Ok(format!(in alloc; "{}", item.gain)?),
        None => Ok(String::from_str(alloc, "none")?),
    }
}
