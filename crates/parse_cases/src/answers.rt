// What is said of a source.
use crate::sources::source_of;
use c_lexer::lex;
use c_parser::parse;
use c_tree::token::Token;
use c_tree::{Unit, depth, nodes};
use parse_text::{Places, line_of};
use std::alloc::{AllocError, Global};
use wcc_base::Text;

/// The longest source that the lexer takes, in bytes.
const LONGEST: usize = 1_048_576;

fn listed(alloc: Global, tokens: &[Token]) -> Result<String, AllocError> {
    let mut line = String::new(alloc);
    for token in tokens {
        let one = format!(in alloc; "{:?} {} {};", token.kind, token.at, token.end)?;
        line.push_str(one.as_str())?;
    }
    Ok(line)
}

fn names_of(alloc: Global, names: &[Text]) -> Result<String, AllocError> {
    let mut line = String::new(alloc);
    for name in names {
        for &b in name.as_bytes() {
            line.push(char::from(b))?;
        }
        line.push(';')?;
    }
    Ok(line)
}

/// What a command asks of a unit with so many tokens.
fn unit_answer(
    alloc: Global,
    command: &str,
    tokens: usize,
    unit: &Unit,
) -> Result<String, AllocError> {
    if command == "tree" {
        return line_of(alloc, unit, Places::Hidden);
    }
    if command == "places" {
        return line_of(alloc, unit, Places::Shown);
    }
    if command == "names" {
        return names_of(alloc, &unit.names);
    }
    let (nodes, depth) = (nodes(unit), depth(unit));
    format!(in alloc; "tokens {tokens} nodes {nodes} depth {depth}")
}

fn source_answer(alloc: Global, command: &str, source: &[u8]) -> Result<String, AllocError> {
    if source.len() > LONGEST {
        return String::from_str(alloc, "too long");
    }
    let tokens = match lex(alloc, source) {
        Ok(tokens) => tokens,
        Err(fault) => return format!(in alloc; "{fault}"),
    };
    if command == "tokens" {
        return listed(alloc, tokens.list());
    }
    if command == "count" {
        return format!(in alloc; "tokens {}", tokens.list().len());
    }
    match parse(alloc, &tokens) {
        Ok(unit) => {
            let answer = unit_answer(alloc, command, tokens.list().len(), &unit);
            drop(unit);
            answer
        }
        Err(fault) => format!(in alloc; "{fault}"),
    }
}

/// The answer to a line.
pub fn answer_to(alloc: Global, line: &str) -> Result<String, AllocError> {
    let Some((command, text)) = line.split_once(' ') else {
        return format!(in alloc; "no source: {line}");
    };
    let source = source_of(alloc, text)?;
    source_answer(alloc, command, &source)
}
