// The facts of a program.
ghost use Rattle.std.specs.Prelude.{◌≡◌, [], map, IfOk, IfErr, Ok};
ghost use Rattle.std.proofs.Math.ListN.{get_or};
ghost use Rattle.types_calls.specs.Calls.{graph_of};
ghost use Rattle.types_calls.specs.Chains.{AreRanks};
ghost use Rattle.facts_definitions.specs.FlowFacts.{IsFlowFault, flow_facts, index_of, known_of, main_of, most_main};
ghost use Rattle.types_tree.specs.Tree.{function_name};
ghost use Rattle.facts_definitions.specs.Most.{cut};
ghost use Rattle.facts_definitions.specs.Sites.{sites_of};
ghost use Rattle.types_tree.specs.View.{function_of, program_of};
ghost use Rattle.flow_facts.specs.Making.{facts_with, sound_outcome};

use super::gathering::{
    as_names, bounds_of, defined_ids, function_ids, marker_ids, restrictions_of,
};
use super::known::Known;
use super::sites::sites_of;
use facts_definitions::{Bounds, Derived, Facts, FlowFault, Site};
use facts_most::most_of_functions;
use facts_pragma::name_id;
use std::alloc::{AllocError, Global};
use types_calls::Ranks;
use types_tree::program::Program;
use wcc_base::Items;

const TOO_OFTEN: u64 = 1 << 40;

fn index_of(id: u32, ids: &[u32]) -> usize
    ensures { result ≡ index_of id ids.now }
{
    for i in 0..ids.len() {
        if id == ids[i] {
            return i;
        }
    }
    ids.len()
}

fn known_of<'a>(
    program: &'a Program,
    sites: &[Site],
    derived: &'a [Derived],
    alloc: Global,
) -> Result<Known<'a>, AllocError>
    requires { sites.now ≡ sites_of (program_of program.now) }
    ensures { IfOk result (λ known. known ≡ known_of (program_of program.now) program.now.names.items derived.now) }
{
    let functions = function_ids(sites, alloc)?;
    let markers = marker_ids(sites, &program.names, alloc)?;
    let defined = defined_ids(&program.functions, alloc)?;
    Ok(Known {
        names: &program.names,
        functions,
        markers,
        defined,
        derived,
    })
}

/// The number of main among the functions.
fn main_of(program: &Program, defined: &[u32]) -> Result<usize, AllocError>
    requires { defined.now ≡ map function_name (map function_of program.now.functions.items) }
    ensures { IfOk result (λ main. main ≡ main_of (program_of program.now) program.now.names.items) }
{
    let id = name_id(&program.names, b"main")?;
    Ok(index_of(id.0, defined))
}

fn at(most: &[u64], function: usize) -> u64
    ensures { result ≡ get_or most.now function 0 }
{
    if function < most.len() {
        return most[function];
    }
    0
}

/// How many nodes a run of main executes at most, cut at 2^64 - 1.
fn most_main(
    program: &Program,
    bounds: &[Bounds],
    ranks: &Ranks,
    defined: &[u32],
    alloc: Global,
) -> Result<u64, AllocError>
    requires ranked { AreRanks (graph_of (program_of program.now)) ranks.now.of_functions }
    requires defined { defined.now ≡ map function_name (map function_of program.now.functions.items) }
    ensures { IfOk result (λ most. most ≡ cut (most_main (program_of program.now) program.now.names.items bounds.now ranks.now)) }
{
    let main = main_of(program, defined)?;
    let most = most_of_functions(program, bounds, ranks.of_functions.as_slice(), alloc)?;
    Ok(at(&most, main))
}

/// The bounds of the loops, and what they allow.
struct Counted {
    bounds: Vec<Bounds>,
    most: u64,
}

fn whole(
    sites: &[Site],
    known: &Known,
    counted: Counted,
    ranks: &Ranks,
    alloc: Global,
) -> Result<Facts, AllocError>
    ensures { IfOk result (λ facts. facts ≡ facts_with known.now sites.now counted.bounds.items ranks.now counted.most) }
{
    let Counted { bounds, most } = counted;
    let functions = as_names(&known.defined, alloc)?;
    let markers = as_names(&known.markers, alloc)?;
    let restrictions = restrictions_of(sites, known.names, alloc)?;
    let of_functions = Vec::from_slice(alloc, ranks.of_functions.as_slice())?;
    Ok(Facts {
        ranks: Ranks {
            of_functions: Items::new(of_functions),
        },
        functions: Items::new(functions),
        bounds: Items::new(bounds),
        markers: Items::new(markers),
        restrictions: Items::new(restrictions),
        most,
    })
}

/// The facts of a program without faults, or that its bounds allow too many node executions.
fn sound(
    program: &Program,
    sites: &[Site],
    known: &Known,
    ranks: &Ranks,
    alloc: Global,
) -> Result<Result<Facts, FlowFault>, AllocError>
    requires ranked { AreRanks (graph_of (program_of program.now)) ranks.now.of_functions }
    requires sites { sites.now ≡ sites_of (program_of program.now) }
    requires known { known.now ≡ known_of (program_of program.now) program.now.names.items known.now.derived }
    ensures { IfOk result (λ outcome. outcome ≡ sound_outcome (program_of program.now) program.now.names.items ranks.now known.now.derived) }
{
    let bounds = bounds_of(sites, known.derived, alloc)?;
    let most = most_main(program, &bounds, ranks, &known.defined, alloc)?;
    if most >= TOO_OFTEN {
        return Ok(Err(FlowFault::TooOften { most }));
    }
    let counted = Counted { bounds, most };
    let facts = whole(sites, known, counted, ranks, alloc)?;
    Ok(Ok(facts))
}

/// The facts of a program, or its first fault.
fn outcome(
    program: &Program,
    ranks: &Ranks,
    derived: &[Derived],
    alloc: Global,
) -> Result<Result<Facts, FlowFault>, AllocError>
    requires { AreRanks (graph_of (program_of program.now)) ranks.now.of_functions }
    ensures { IfOk result (λ outcome. outcome ≡ flow_facts (program_of program.now) program.now.names.items ranks.now derived.now) }
{
    let sites = sites_of(program, alloc)?;
    let known = known_of(program, &sites, derived, alloc)?;
    match known.first_fault(&sites, alloc)? {
        Some(fault) => Ok(Err(fault)),
        None => sound(program, &sites, &known, ranks, alloc),
    }
}

/// The facts of a program whose ranks these are, where the loops that `derived` names, and that have no pragma, have
/// its bounds; or the first bad pragma, unknown name or loop without a bound in source order, or else that the bounds
/// allow 2^40 node executions or more.
#[tactic(auto, using(crate::proofs::Outcome::says))]
pub fn facts_with(
    alloc: Global,
    program: &Program,
    ranks: &Ranks,
    derived: &[Derived],
) -> Result<Facts, FlowFault>
    requires { AreRanks (graph_of (program_of program.now)) ranks.now.of_functions }
    ensures ok { IfOk result (λ facts. flow_facts (program_of program.now) program.now.names.items ranks.now derived.now ≡ Ok facts) }
    ensures err { IfErr result (λ fault. IsFlowFault fault (flow_facts (program_of program.now) program.now.names.items ranks.now derived.now)) }
{
    match outcome(program, ranks, derived, alloc) {
        Ok(outcome) => outcome,
        Err(_) => Err(FlowFault::Memory),
    }
}

/// The facts of a program whose ranks these are, without derived bounds.
pub fn facts(alloc: Global, program: &Program, ranks: &Ranks) -> Result<Facts, FlowFault>
    requires { AreRanks (graph_of (program_of program.now)) ranks.now.of_functions }
    ensures ok { IfOk result (λ facts. flow_facts (program_of program.now) program.now.names.items ranks.now [] ≡ Ok facts) }
    ensures err { IfErr result (λ fault. IsFlowFault fault (flow_facts (program_of program.now) program.now.names.items ranks.now [])) }
{
    facts_with(alloc, program, ranks, &[])
}
