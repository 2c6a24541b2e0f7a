// What sites give, in their order.
ghost use Rattle.std.specs.Prelude.{◌≡◌, ◌++◌, [], map, IfOk, OnOk, Option};
ghost use Rattle.facts_definitions.specs.FlowFacts.{and_one, bounds_at_site, bounds_of, function_at, function_ids, marker_at, marker_ids, name_id, restriction_at, restrictions_of};
ghost use Rattle.types_tree.specs.Tree.{function_name};
ghost use Rattle.types_tree.specs.View.{function_of};

use super::known::derived_bounds;
use c_tree::expression::NameId;
use facts_definitions::{Bounds, Derived, Restriction, Site};
use facts_pragma::{loop_bounds, marker_name, name_id, restriction};
use std::alloc::{AllocError, Global};
use types_tree::external::Function;
use wcc_base::Text;

const NO_BOUNDS: Bounds = Bounds { min: 0, max: 0 };

/// One more, where there is one.
fn keep<T: Drop>(list: &mut Vec<T>, one: Option<T>) -> Result<(), AllocError>
    ensures { OnOk result (list.new.items ≡ list.old.items ++ and_one one []) }
{
    match one {
        None => Ok(()),
        Some(x) => {
            list.push(x)?;
            Ok(())
        }
    }
}

fn bounds_at(site: &Site, derived: &[Derived]) -> Option<Bounds>
    ensures { result ≡ bounds_at_site derived.now site.now }
{
    match site {
        Site::Bounded { pragma, .. } => {
            Some(loop_bounds(pragma.text.as_bytes()).unwrap_or(NO_BOUNDS))
        }
        Site::Unbounded { number, .. } => {
            Some(derived_bounds(derived, *number).unwrap_or(NO_BOUNDS))
        }
        Site::Filling { count, .. } => Some(Bounds {
            min: *count,
            max: *count,
        }),
        Site::Marker(_) => None,
        Site::Restriction(_) => None,
        Site::Function(_) => None,
    }
}

/// The bounds of the loops.
#[tactic(auto, using(crate::proofs::Kept::kept_before))]
pub fn bounds_of(
    sites: &[Site],
    derived: &[Derived],
    alloc: Global,
) -> Result<Vec<Bounds>, AllocError>
    ensures { IfOk result (λ bounds. bounds.items ≡ bounds_of derived.now sites.now) }
{
    let mut bounds = Vec::new(alloc);
    for site in sites {
        keep(&mut bounds, bounds_at(site, derived))?;
    }
    Ok(bounds)
}

fn marker_at(site: &Site, names: &[Text]) -> Result<Option<u32>, AllocError>
    ensures { IfOk result (λ id. id ≡ marker_at names.now site.now) }
{
    match site {
        Site::Bounded { .. } => Ok(None),
        Site::Unbounded { .. } => Ok(None),
        Site::Filling { .. } => Ok(None),
        Site::Marker(pragma) => match marker_name(pragma.text.as_bytes()) {
            None => Ok(None),
            Some(name) => {
                let id = name_id(names, name)?;
                Ok(Some(id.0))
            }
        },
        Site::Restriction(_) => Ok(None),
        Site::Function(_) => Ok(None),
    }
}

/// The names of the markers, by their numbers.
#[tactic(auto, using(crate::proofs::Kept::kept_before))]
pub fn marker_ids(sites: &[Site], names: &[Text], alloc: Global) -> Result<Vec<u32>, AllocError>
    ensures { IfOk result (λ ids. ids.items ≡ marker_ids names.now sites.now) }
{
    let mut ids = Vec::new(alloc);
    for site in sites {
        let id = marker_at(site, names)?;
        keep(&mut ids, id)?;
    }
    Ok(ids)
}

fn function_at(site: &Site) -> Option<u32>
    ensures { result ≡ function_at site.now }
{
    match site {
        Site::Bounded { .. } => None,
        Site::Unbounded { .. } => None,
        Site::Filling { .. } => None,
        Site::Marker(_) => None,
        Site::Restriction(_) => None,
        Site::Function(name) => Some(name.0),
    }
}

/// The names of the functions that are declared or defined, by their numbers.
#[tactic(auto, using(crate::proofs::Kept::kept_before))]
pub fn function_ids(sites: &[Site], alloc: Global) -> Result<Vec<u32>, AllocError>
    ensures { IfOk result (λ ids. ids.items ≡ function_ids sites.now) }
{
    let mut ids = Vec::new(alloc);
    for site in sites {
        keep(&mut ids, function_at(site))?;
    }
    Ok(ids)
}

fn restriction_at(
    site: &Site,
    names: &[Text],
    alloc: Global,
) -> Result<Option<Restriction>, AllocError>
    ensures { IfOk result (λ r. r ≡ restriction_at names.now site.now) }
{
    match site {
        Site::Bounded { .. } => Ok(None),
        Site::Unbounded { .. } => Ok(None),
        Site::Filling { .. } => Ok(None),
        Site::Marker(_) => Ok(None),
        Site::Restriction(pragma) => {
            restriction(pragma.text.as_bytes(), pragma.at, names, alloc)
        }
        Site::Function(_) => Ok(None),
    }
}

/// The restrictions.
#[tactic(auto, using(crate::proofs::Kept::kept_before))]
pub fn restrictions_of(
    sites: &[Site],
    names: &[Text],
    alloc: Global,
) -> Result<Vec<Restriction>, AllocError>
    ensures { IfOk result (λ rs. rs.items ≡ restrictions_of names.now sites.now) }
{
    let mut restrictions = Vec::new(alloc);
    for site in sites {
        let read = restriction_at(site, names, alloc)?;
        keep(&mut restrictions, read)?;
    }
    Ok(restrictions)
}

/// The names of the defined functions, by their numbers.
pub fn defined_ids(functions: &[Function], alloc: Global) -> Result<Vec<u32>, AllocError>
    ensures { IfOk result (λ ids. ids.items ≡ map function_name (map function_of functions.now)) }
{
    let mut ids = Vec::new(alloc);
    for function in functions {
        ids.push(function.name.0)?;
    }
    Ok(ids)
}

/// Numbers as those of names.
pub fn as_names(ids: &[u32], alloc: Global) -> Result<Vec<NameId>, AllocError>
    ensures { IfOk result (λ names. names.items ≡ map name_id ids.now) }
{
    let mut names = Vec::new(alloc);
    for id in ids {
        names.push(NameId(*id))?;
    }
    Ok(names)
}
