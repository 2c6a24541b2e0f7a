//! Says what a restriction over functions and markers becomes over the places where they stand: a program for tests.
//!
//! `2*t + 3*f <= 6*main + 1*t` is said of a function `f` at 8, `main` at 0, and a marker `t` that stands twice, the copy at 64
//! first. What is printed was worked out by hand.
#![tactic(auto)]

use c_tree::expression::NameId;
use facts_definitions::{Facts, Restriction, Term};
use flow_facts::{AddressFact, Places, translate};
use frac128::Sum;
use std::alloc::{AllocError, Global};
use std::io;
use types_calls::Ranks;
use wcc_base::{Compare, Items};

/// The names of `f`, `main` and `t`.
const F: NameId = NameId(0);

const MAIN: NameId = NameId(1);

const T: NameId = NameId(2);

fn term(coef: u32, name: NameId) -> Term {
    Term { coef, name }
}

/// The restriction, whose pragma stands at 107, alone.
fn facts(alloc: Global) -> Result<Facts, AllocError> {
    let restriction = Restriction {
        left: Items::new(vec![in alloc; term(2, T), term(3, F)]?),
        op: Compare::AtMost,
        right: Items::new(vec![in alloc; term(6, MAIN), term(1, T)]?),
        at: 107,
    };
    let mut restrictions = Vec::new(alloc);
    restrictions.push(restriction)?;
    Ok(Facts {
        ranks: Ranks {
            of_functions: Items::new(vec![in alloc; 0, 1]?),
        },
        functions: Items::new(vec![in alloc; F, MAIN]?),
        bounds: Items::new(Vec::new(alloc)),
        markers: Items::new(vec![in alloc; T]?),
        restrictions: Items::new(restrictions),
        most: 0,
    })
}

fn lists(alloc: Global, rows: &[&[u32]]) -> Result<Items<Items<u32>>, AllocError> {
    let mut lists = Vec::new(alloc);
    for row in rows {
        lists.push(Items::new(Vec::from_slice(alloc, *row)?))?;
    }
    Ok(Items::new(lists))
}

fn places(alloc: Global) -> Result<Places, AllocError> {
    Ok(Places {
        of_functions: lists(alloc, &[&[8], &[0]])?,
        of_markers: lists(alloc, &[&[64, 16]])?,
    })
}

/// The terms of a sum, each its number and its address.
fn shown(alloc: Global, sum: &Sum) -> Result<String, AllocError> {
    let mut line = String::new(alloc);
    for (at, number) in sum.terms() {
        let term = format!(in alloc; " {number}*{at}")?;
        line.push_str(term.as_str())?;
    }
    Ok(line)
}

fn said(alloc: Global, fact: &AddressFact) -> Result<String, AllocError> {
    let left = shown(alloc, &fact.left)?;
    let right = shown(alloc, &fact.right)?;
    format!(in alloc; "at {}:{left} {:?}{right}", fact.at, fact.op)
}

fn main(rt: HostRuntime) -> io::Result<()> {
    let alloc = rt.alloc();
    let (facts, places) = (facts(alloc)?, places(alloc)?);
    match translate(alloc, &facts, &places) {
        Ok(found) => {
            for fact in &found {
                println!(rt; "{}", said(alloc, fact)?)?;
            }
        }
        Err(_) => println!(rt; "no memory")?,
    }
    Ok(())
}
