// Sites, one behind the other.
ghost use Rattle.std.specs.Prelude.{◌≡◌, ◌-◌, ◌++◌, ◌∷◌, [], IfOk, OnOk, slice_get, Option};
ghost use Rattle.facts_definitions.specs.Sites.{elements_of, filling_sites, loop_site};
ghost use Rattle.facts_definitions.specs.declared.site.Site.TheVariants.{Function, Marker, Restriction};
ghost use Rattle.c_tree.specs.Named.{map_option};
ghost use Rattle.types_tree.specs.View.{loop_of};

use c_tree::Pragma;
use c_tree::expression::NameId;
use facts_definitions::Site;
use std::alloc::{AllocError, Global};
use types_tree::statement::LoopId;
use types_tree::variable::{Extent, Variable};
use wcc_base::Text;

/// A pragma of its own.
fn copied(pragma: &Pragma, alloc: Global) -> Result<Pragma, AllocError>
    ensures { IfOk result (λ copy. copy ≡ pragma.now) }
{
    let text = Vec::from_slice(alloc, pragma.text.as_bytes())?;
    Ok(Pragma {
        text: Text::new(text),
        at: pragma.at,
    })
}

fn push(sites: &mut Vec<Site>, site: Site) -> Result<(), AllocError>
    ensures { OnOk result (sites.new.items ≡ sites.old.items ++ site ∷ []) }
{
    sites.push(site)?;
    Ok(())
}

pub fn push_loop(
    number: LoopId,
    bound: &Option<Pragma>,
    at: u32,
    sites: &mut Vec<Site>,
    alloc: Global,
) -> Result<(), AllocError>
    ensures { OnOk result (sites.new.items ≡ sites.old.items ++ loop_site number.0 bound.now at ∷ []) }
{
    match bound {
        None => push(
            sites,
            Site::Unbounded {
                number: number.0,
                at,
            },
        ),
        Some(pragma) => {
            let pragma = copied(pragma, alloc)?;
            push(
                sites,
                Site::Bounded {
                    number: number.0,
                    pragma,
                },
            )
        }
    }
}

pub fn push_marker(pragma: &Pragma, sites: &mut Vec<Site>, alloc: Global) -> Result<(), AllocError>
    ensures { OnOk result (sites.new.items ≡ sites.old.items ++ Marker pragma.now ∷ []) }
{
    let pragma = copied(pragma, alloc)?;
    push(sites, Site::Marker(pragma))
}

pub fn push_restriction(
    pragma: &Pragma,
    sites: &mut Vec<Site>,
    alloc: Global,
) -> Result<(), AllocError>
    ensures { OnOk result (sites.new.items ≡ sites.old.items ++ Restriction pragma.now ∷ []) }
{
    let pragma = copied(pragma, alloc)?;
    push(sites, Site::Restriction(pragma))
}

pub fn push_function(name: NameId, sites: &mut Vec<Site>) -> Result<(), AllocError>
    ensures { OnOk result (sites.new.items ≡ sites.old.items ++ Function (record { 0 = name.0 }) ∷ []) }
{
    push(sites, Site::Function(name))
}

/// The elements of an object.
pub fn elements_of(variables: &[Variable], object: u32) -> u32
    ensures { result ≡ elements_of (slice_get variables.now object) }
{
    let index = object as usize;
    if index >= variables.len() {
        return 0;
    }
    match variables[index].extent {
        Extent::Scalar => 1,
        Extent::Array(count) => count,
        Extent::Parameter => 0,
    }
}

/// The filling of what a list of so many values leaves over.
pub fn push_filling(
    filling: Option<LoopId>,
    elements: u32,
    values: usize,
    sites: &mut Vec<Site>,
) -> Result<(), AllocError>
    ensures { OnOk result (sites.new.items ≡ sites.old.items ++ filling_sites (elements - values) (map_option loop_of filling)) }
{
    let Some(number) = filling else {
        return Ok(());
    };
    let left = (elements as usize).saturating_sub(values);
    match u32::try_from(left) {
        Ok(count) => push(
            sites,
            Site::Filling {
                number: number.0,
                count,
            },
        ),
        Err(_) => Err(AllocError),
    }
}
