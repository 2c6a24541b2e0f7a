// The claims on marks that no kept run passes.
ghost use Rattle.std.specs.Prelude.{◌≡◌, ◌<◌, ◌++◌, map, All, IfOk};
ghost use Rattle.std.specs.List.{flat_map};
ghost use Rattle.compile_claims.specs.Named.{AreNevers, never_at, nevers_at};

use super::places::places_at;
use code_flow_system::Never;
use high_ir::NeverMark;
use std::alloc::Global;
use wcc_base::{Items, Memory};

/// The claim on an address of a mark.
fn never_at(mark: NeverMark, at: u32) -> Never
    requires { mark.old < 4294967295 }
    ensures { result ≡ never_at mark at }
{
    Never {
        source: mark.old + 1,
        factor: mark.factor,
        at,
    }
}

/// The claims on the addresses of a mark, behind others.
fn add_nevers(mark: NeverMark, addresses: &[u32], nevers: &mut Vec<Never>) -> Result<(), Memory>
    requires { mark.old < 4294967295 }
    ensures { IfOk result (λ _. nevers.new.items ≡ nevers.old.items ++ map (never_at mark) addresses.now) }
{
    for at in addresses {
        nevers.push(never_at(mark, *at))?;
    }
    Ok(())
}

/// The claims on the addresses of these marks, mark by mark.
fn nevers_by_mark(
    alloc: Global,
    places: &[Items<u32>],
    marks: &[NeverMark],
) -> Result<Vec<Never>, Memory>
    requires { All (λ v. v.old < 4294967295) marks.now }
    ensures { IfOk result (λ v. v.items ≡ flat_map (nevers_at places.now) marks.now) }
{
    let mut nevers = Vec::new(alloc);
    for mark in marks {
        add_nevers(*mark, places_at(places, mark.mark), &mut nevers)?;
    }
    Ok(nevers)
}

/// The claims on the addresses of these marks, in ascending order.
pub fn nevers_of(
    alloc: Global,
    places: &[Items<u32>],
    marks: &[NeverMark],
) -> Result<Vec<Never>, Memory>
    requires { All (λ v. v.old < 4294967295) marks.now }
    ensures { IfOk result (λ v. AreNevers places.now marks.now v.items) }
{
    let mut nevers = nevers_by_mark(alloc, places, marks)?;
    nevers.sort_unstable_by_key(|never| never.at);
    Ok(nevers)
}
