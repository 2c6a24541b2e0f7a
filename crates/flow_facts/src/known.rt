// What names in pragmas may stand for, and what is wrong at a site.
ghost use Rattle.std.specs.Prelude.{◌≡◌, IfOk, Option, None, Some};
ghost use Rattle.facts_definitions.specs.FlowFacts.{derived_bounds, first_fault, is_among, is_counted, is_library, is_marker, is_twice, site_fault, when_not};
ghost use Rattle.facts_definitions.specs.PragmaTexts.{marker_name};
ghost use Rattle.flow_facts.specs.Sums.{all_counted, marks_once, restriction_fault};

use c_tree::Pragma;
use facts_definitions::{Bounds, Derived, FlowFault, Restriction, Site, Term};
use facts_pragma::{loop_bounds, marker_name, name_id, restriction};
use std::alloc::{AllocError, Global};
use std::marker::Model;
use wcc_base::Text;

/// What names in pragmas may stand for, by their numbers, and the bounds that were derived.
#[derive(Drop)]
pub struct Known<'a> {
    pub names: &'a [Text],
    pub functions: Vec<u32>,
    pub markers: Vec<u32>,
    pub defined: Vec<u32>,
    pub derived: &'a [Derived],
}

impl<'a> Model for Known<'a> {
    ghost use Rattle.facts_definitions.specs.FlowFacts.{Known};

    ghost Value = { Known };

    ghost view = { λ k. record { names = k.names.now; functions = k.functions.items; markers = k.markers.items; defined = k.defined.items; derived = k.derived.now } };
}

pub fn is_among(n: u32, ns: &[u32]) -> bool
    ensures { result ≡ is_among n ns.now }
{
    for i in 0..ns.len() {
        if n == ns[i] {
            return true;
        }
    }
    false
}

/// Whether a number stands in a list twice or more.
fn is_twice(n: u32, ns: &[u32]) -> bool
    ensures { result ≡ is_twice n ns.now }
{
    for i in 0..ns.len() {
        if n == ns[i] {
            return is_among(n, &ns[i + 1..]);
        }
    }
    false
}

fn is_library(name: &[u8]) -> bool
    ensures { result ≡ is_library name.now }
{
    name == b"getchar".as_slice() || name == b"putchar".as_slice()
}

/// The bounds that were derived for the loop of this number.
pub fn derived_bounds(derived: &[Derived], number: u32) -> Option<Bounds>
    ensures { result ≡ derived_bounds derived.now number }
{
    for i in 0..derived.len() {
        if derived[i].number == number {
            return Some(derived[i].bounds);
        }
    }
    None
}

fn when_not(holds: bool, fault: FlowFault) -> Option<FlowFault>
    ensures { result ≡ when_not holds fault }
{
    if holds { None } else { Some(fault) }
}

impl<'a> Known<'a> {
    /// Whether the name of this number is that of a marker and of nothing else.
    fn marks_once(&self, id: u32) -> bool
        ensures { result ≡ marks_once self.now id }
    {
        if is_among(id, &self.functions) {
            return false;
        }
        !is_twice(id, &self.markers)
    }

    fn is_marker(&self, pragma: &Pragma) -> Result<bool, AllocError>
        ensures { IfOk result (λ b. b ≡ is_marker self.now (marker_name pragma.now.text)) }
    {
        match marker_name(pragma.text.as_bytes()) {
            None => Ok(false),
            Some(name) => {
                if is_library(name) {
                    return Ok(false);
                }
                let id = name_id(self.names, name)?;
                Ok(self.marks_once(id.0))
            }
        }
    }

    fn is_counted(&self, id: u32) -> bool
        ensures { result ≡ is_counted self.now id }
    {
        if is_among(id, &self.markers) {
            return true;
        }
        is_among(id, &self.defined)
    }

    fn all_counted(&self, terms: &[Term]) -> bool
        ensures { result ≡ all_counted self.now terms.now }
    {
        for i in 0..terms.len() {
            if !self.is_counted(terms[i].name.0) {
                return false;
            }
        }
        true
    }

    fn restriction_fault(&self, restriction: &Option<Restriction>, at: u32) -> Option<FlowFault>
        ensures { result ≡ restriction_fault self.now restriction.now at }
    {
        let Some(restriction) = restriction else {
            return Some(FlowFault::BadPragma { at });
        };
        if !self.all_counted(restriction.left.as_slice()) {
            return Some(FlowFault::UnknownName { at });
        }
        if !self.all_counted(restriction.right.as_slice()) {
            return Some(FlowFault::UnknownName { at });
        }
        None
    }

    /// What is wrong at a site.
    fn site_fault(&self, site: &Site, alloc: Global) -> Result<Option<FlowFault>, AllocError>
        ensures { IfOk result (λ fault. fault ≡ site_fault self.now site.now) }
    {
        match site {
            Site::Bounded { pragma, .. } => {
                let bounded = loop_bounds(pragma.text.as_bytes()).is_some();
                Ok(when_not(bounded, FlowFault::BadPragma { at: pragma.at }))
            }
            Site::Unbounded { number, at } => {
                let bounded = derived_bounds(self.derived, *number).is_some();
                Ok(when_not(bounded, FlowFault::NoBound { at: *at }))
            }
            Site::Filling { .. } => Ok(None),
            Site::Marker(pragma) => {
                let marker = self.is_marker(pragma)?;
                Ok(when_not(marker, FlowFault::BadPragma { at: pragma.at }))
            }
            Site::Restriction(pragma) => {
                let read = restriction(pragma.text.as_bytes(), pragma.at, self.names, alloc)?;
                Ok(self.restriction_fault(&read, pragma.at))
            }
            Site::Function(_) => Ok(None),
        }
    }

    /// The first fault in source order.
    pub fn first_fault(
        &self,
        sites: &[Site],
        alloc: Global,
    ) -> Result<Option<FlowFault>, AllocError>
        ensures { IfOk result (λ fault. fault ≡ first_fault self.now sites.now) }
    {
        for site in sites {
            if let Some(fault) = self.site_fault(site, alloc)? {
                return Ok(Some(fault));
            }
        }
        Ok(None)
    }
}
