// What is said of a source.
use bound_finder::derive;
use c_lexer::lex;
use c_meaning::{SourceRun, eval};
use c_parser::parse;
use c_types::{Typed, check};
use call_graph::ranks;
use facts_definitions::{Derived, Facts, FlowFault};
use flow_facts::facts_with;
use std::alloc::Global;
use types_tree::program::Program;
use wcc_base::Memory;

/// The longest source that the lexer takes, in bytes.
const LONGEST: usize = 1_048_576;

/// The typed tree of a source, where it has one.
fn typed_of(alloc: Global, source: &[u8]) -> Option<Typed> {
    if source.len() > LONGEST {
        return None;
    }
    let tokens = lex(alloc, source).ok()?;
    let unit = parse(alloc, &tokens).ok()?;
    check(alloc, unit).ok()
}

/// Each derived bound, as the loop's number, its least and its most turns.
fn listed(alloc: Global, derived: &[Derived]) -> Result<String, Memory> {
    let mut line = String::new(alloc);
    for one in derived {
        let bounds = one.bounds;
        let text = format!(in alloc; "{} {} {}, ", one.number, bounds.min, bounds.max)?;
        line.push_str(text.as_str())?;
    }
    Ok(line)
}

/// What a run on the empty input comes to.
fn ended(alloc: Global, program: &Program, facts: &Facts) -> Result<String, Memory> {
    let line = match eval(alloc, program, facts, b"")? {
        SourceRun::Done { value, .. } => format!(in alloc; "value {value}")?,
        SourceRun::Undefined { rule, at } => format!(in alloc; "undefined {rule} at {at}")?,
        SourceRun::Broken { .. } => format!(in alloc; "broken")?,
    };
    Ok(line)
}

/// What a program comes to under facts with these bounds.
fn came(alloc: Global, program: &Program, derived: &[Derived]) -> Result<String, Memory> {
    let Ok(ranks) = ranks(alloc, program) else {
        return Ok(format!(in alloc; "no ranks")?);
    };
    match facts_with(alloc, program, &ranks, derived) {
        Ok(facts) => ended(alloc, program, &facts),
        Err(FlowFault::NoBound { at }) => Ok(format!(in alloc; "no bound at {at}")?),
        Err(fault) => Ok(format!(in alloc; "{fault}")?),
    }
}

/// The answer to a line.
pub fn answer_to(alloc: Global, source: &[u8]) -> Result<String, Memory> {
    let Some(typed) = typed_of(alloc, source) else {
        return Ok(format!(in alloc; "no program")?);
    };
    let derived = derive(alloc, &typed.program)?;
    let mut line = listed(alloc, &derived)?;
    let end = came(alloc, &typed.program, &derived)?;
    typed.let_go();
    line.push_str(end.as_str())?;
    Ok(line)
}
