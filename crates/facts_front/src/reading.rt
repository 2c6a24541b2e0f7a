// From the bytes of a source to its typed program and its facts.
ghost use Rattle.std.specs.Prelude.{◌≡◌, ◌≤◌, ℕ, Bool, List, length, IfErr, IfOk, Ok};
ghost use Rattle.c_lexer.specs.Cut.{HasTokens};
ghost use Rattle.c_tree.specs.Units.{tree_of};
ghost use Rattle.types_tree.specs.View.{program_of};
ghost use Rattle.types_calls.specs.Calls.{graph_of};
ghost use Rattle.types_calls.specs.Chains.{AreRanks};
ghost use Rattle.facts_definitions.specs.FlowFacts.{flow_facts};
ghost use Rattle.facts_front.specs.Fronts.{cycle_place, fault_place, Fails};
ghost use Rattle.facts_sources.specs.Sources.{derived_for, HasUnit, HasProgram, HasFacts, IsSourceBy};

use crate::refusal::Refusal;
use bound_finder::derive as derive_bounds;
use c_lexer::{LexFault, lex};
use c_parser::{ParseFault, parse};
use c_tree::{Token, Tokens, Unit};
use c_types::{Typed, check};
use call_graph::ranks;
use facts_definitions::{Derived, Facts, FlowFault};
use flow_facts::facts_with;
use std::alloc::Global;
use types_calls::{CallFault, Ranks};
use types_rules::TypeFault;
use types_tree::program::Program;
use wcc_base::Memory;

const SOURCE_MOST: usize = 1_048_576;

/// The typed program of a source, and its facts.
#[derive(Drop)]
pub struct Source {
    pub typed: Typed,
    pub facts: Facts,
}

impl Source {
    /// Lets go of a source.
    pub fn let_go(self) {
        let Source { typed, facts } = self;
        typed.let_go();
        drop(facts);
    }
}

// The place of a token, or the end where there is no such token.
fn place_or_end(tokens: &[Token], token: u32, end: u32) -> u32
    ensures { result ≡ fault_place (ParseFault.Syntax token) tokens.now end }
{
    match tokens.get(token as usize) {
        Some(token) => token.at,
        None => end,
    }
}

// The place of a fault.
fn fault_place(tokens: &Tokens, fault: ParseFault, end: u32) -> u32
    ensures { result ≡ fault_place fault tokens.now.list end }
{
    match fault {
        ParseFault::Syntax { token } | ParseFault::Deep { token } => {
            place_or_end(tokens.list(), token, end)
        }
        ParseFault::Memory => end,
    }
}

// The tree of the tokens.
fn read_tokens(alloc: Global, source: &[u8], tokens: &Tokens) -> Result<Unit, Refusal>
    requires short { length source.now ≤ 1048576 }
    requires has { HasTokens source.now tokens.now.list }
    requires source { tokens.now.source ≡ source.now }
    ensures ok { IfOk result (λ unit. HasUnit source.now unit.names.items (tree_of unit)) }
    ensures err { IfErr result (λ e. (derive : Bool) → Fails derive source.now e) }
{
    match parse(alloc, tokens) {
        Ok(unit) => Ok(unit),
        Err(ParseFault::Memory) => Err(Refusal::Memory),
        Err(fault) => {
            let at = fault_place(tokens, fault, source.len() as u32);
            Err(Refusal::Parse { fault, at })
        }
    }
}

// The tree of a source.
fn read_unit(alloc: Global, source: &[u8]) -> Result<Unit, Refusal>
    requires { length source.now ≤ 1048576 }
    ensures ok { IfOk result (λ unit. HasUnit source.now unit.names.items (tree_of unit)) }
    ensures err { IfErr result (λ e. (derive : Bool) → Fails derive source.now e) }
{
    match lex(alloc, source) {
        Ok(tokens) => read_tokens(alloc, source, &tokens),
        Err(LexFault::Memory) => Err(Refusal::Memory),
        Err(fault) => Err(Refusal::Lex(fault)),
    }
}

// The typed program of a tree.
fn read_types(alloc: Global, unit: Unit) -> Result<Typed, Refusal>
    ensures ok { IfOk result (λ t. (source : List ℕ) → HasUnit source unit.names.items (tree_of unit)
        → HasProgram source t.program.names.items (program_of t.program)) }
    ensures err { IfErr result (λ e. (derive : Bool) (source : List ℕ) → HasUnit source unit.names.items (tree_of unit) → Fails derive source e) }
{
    match check(alloc, unit) {
        Ok(typed) => Ok(typed),
        Err(TypeFault::Memory) => Err(Refusal::Memory),
        Err(fault) => Err(Refusal::Types(fault)),
    }
}

// The place of the name of a function that reaches itself.
fn cycle_place(program: &Program, fault: &CallFault) -> u32
    ensures { result ≡ cycle_place fault.now (program_of program.now) }
{
    match fault {
        CallFault::Recursion { function } => match program.functions.get(function.0 as usize) {
            Some(function) => function.name_at,
            None => 0,
        },
        CallFault::Memory => 0,
    }
}

// The ranks of a program.
fn read_ranks(alloc: Global, program: &Program) -> Result<Ranks, Refusal>
    ensures ok { IfOk result (λ r. AreRanks (graph_of (program_of program.now)) r.of_functions) }
    ensures err { IfErr result (λ e. (derive : Bool) (source : List ℕ) → HasProgram source program.now.names.items (program_of program.now) → Fails derive source e) }
{
    match ranks(alloc, program) {
        Ok(ranks) => Ok(ranks),
        Err(CallFault::Memory) => Err(Refusal::Memory),
        Err(fault) => {
            let at = cycle_place(program, &fault);
            Err(Refusal::Calls { fault, at })
        }
    }
}

// The bounds that are derived for counting loops, where they are asked for.
fn derived_for(alloc: Global, program: &Program, derive: bool) -> Result<Vec<Derived>, Memory>
    ensures { IfOk result (λ derived. derived.items ≡ derived_for derive (program_of program.now)) }
{
    if derive {
        return derive_bounds(alloc, program);
    }
    Ok(Vec::new(alloc))
}

// The facts of a program whose ranks these are, with these derived bounds.
fn read_flow(
    alloc: Global,
    program: &Program,
    ranks: &Ranks,
    derive: bool,
) -> Result<Facts, Refusal>
    requires { AreRanks (graph_of (program_of program.now)) ranks.now.of_functions }
    ensures ok { IfOk result (λ facts. flow_facts (program_of program.now) program.now.names.items ranks.now (derived_for derive (program_of program.now)) ≡ Ok facts) }
    ensures err { IfErr result (λ e. (source : List ℕ) → HasProgram source program.now.names.items (program_of program.now) → Fails derive source e) }
{
    let derived = match derived_for(alloc, program, derive) {
        Ok(derived) => derived,
        Err(_) => return Err(Refusal::Memory),
    };
    match facts_with(alloc, program, ranks, &derived) {
        Ok(facts) => Ok(facts),
        Err(FlowFault::Memory) => Err(Refusal::Memory),
        Err(fault) => Err(Refusal::Flow(fault)),
    }
}

// The facts of a program.
fn read_facts(alloc: Global, program: &Program, derive: bool) -> Result<Facts, Refusal>
    ensures ok { IfOk result (HasFacts derive (program_of program.now) program.now.names.items) }
    ensures err { IfErr result (λ e. (source : List ℕ) → HasProgram source program.now.names.items (program_of program.now) → Fails derive source e) }
{
    let ranks = match read_ranks(alloc, program) {
        Ok(ranks) => ranks,
        Err(refusal) => return Err(refusal),
    };
    read_flow(alloc, program, &ranks, derive)
}

/// The typed program of a source and its facts: tokens, tree, types, call ranks and flow facts, with the bounds that are derived
/// for counting loops where these are asked for.
///
/// It is refused with the fault of the first of these steps that refuses it, or where it is longer
/// than 1,048,576 bytes.
pub fn read_source(alloc: Global, source: &[u8], derive: bool) -> Result<Source, Refusal>
    ensures ok { IfOk result (λ s. IsSourceBy derive source.now s.typed.program.names.items (program_of s.typed.program) s.facts) }
    ensures err { IfErr result (Fails derive source.now) }
{
    if source.len() > SOURCE_MOST {
        return Err(Refusal::TooLong);
    }
    let unit = match read_unit(alloc, source) {
        Ok(unit) => unit,
        Err(refusal) => return Err(refusal),
    };
    let typed = match read_types(alloc, unit) {
        Ok(typed) => typed,
        Err(refusal) => return Err(refusal),
    };
    match read_facts(alloc, &typed.program, derive) {
        Ok(facts) => Ok(Source { typed, facts }),
        Err(refusal) => {
            typed.let_go();
            Err(refusal)
        }
    }
}
