// The status of a source that has no program with facts.
ghost use Rattle.std.specs.Prelude.{◌≡◌};
ghost use Rattle.wcc_base.specs.declared.status.Status.TheVariants as status;
ghost use Rattle.command_perform.specs.Sources.{lex_status, parse_status, rule_number, type_status, call_status, flow_status, refusal_status};

use c_lexer::LexFault;
use c_parser::ParseFault;
use facts_definitions::FlowFault;
use facts_front::Refusal;
use types_calls::CallFault;
use types_rules::{Rule, TypeFault};
use wcc_base::{Bound, Status};

fn refused(code: u8, detail: u8, at: u32) -> Status
    ensures { result ≡ status.Refused code detail at }
{
    Status::Refused { code, detail, at }
}

fn lex_status(fault: LexFault) -> Status
    ensures { result ≡ lex_status fault }
{
    match fault {
        LexFault::Bad { at } => refused(1, 0, at),
        LexFault::Outside { at } => refused(2, 0, at),
        LexFault::Memory => Status::Memory,
    }
}

fn parse_status(fault: ParseFault, at: u32) -> Status
    ensures { result ≡ parse_status fault at }
{
    match fault {
        ParseFault::Syntax { .. } => refused(3, 0, at),
        ParseFault::Deep { .. } => Status::Limit {
            which: Bound::Depth,
            found: 257,
        },
        ParseFault::Memory => Status::Memory,
    }
}

fn rule_number(rule: Rule) -> u8
    ensures { result ≡ rule_number rule }
{
    match rule {
        Rule::Specifiers => 1,
        Rule::Undeclared => 2,
        Rule::Redeclared => 3,
        Rule::Constant => 4,
        Rule::Size => 5,
        Rule::Array => 6,
        Rule::Call => 7,
        Rule::Void => 8,
        Rule::Assigned => 9,
        Rule::Label => 10,
        Rule::Jump => 11,
        Rule::Return => 12,
        Rule::Main => 13,
        Rule::Undefined => 14,
        Rule::Initial => 15,
        Rule::Parameter => 16,
    }
}

fn type_status(fault: TypeFault) -> Status
    ensures { result ≡ type_status fault }
{
    match fault {
        TypeFault::Limit { which, found } => Status::Limit { which, found },
        TypeFault::Rule { rule, at } => refused(4, rule_number(rule), at),
        TypeFault::Memory => Status::Memory,
    }
}

fn call_status(fault: CallFault, at: u32) -> Status
    ensures { result ≡ call_status fault at }
{
    match fault {
        CallFault::Recursion { .. } => refused(5, 0, at),
        CallFault::Memory => Status::Memory,
    }
}

fn flow_status(fault: FlowFault) -> Status
    ensures { result ≡ flow_status fault }
{
    match fault {
        FlowFault::BadPragma { at } => refused(6, 0, at),
        FlowFault::UnknownName { at } => refused(7, 0, at),
        FlowFault::NoBound { at } => refused(8, 0, at),
        FlowFault::TooOften { most } => Status::Limit {
            which: Bound::Most,
            found: most,
        },
        FlowFault::Memory => Status::Memory,
    }
}

/// The status of a source that is refused.
pub fn refusal_status(refusal: Refusal) -> Status
    ensures { result ≡ refusal_status refusal }
{
    match refusal {
        Refusal::TooLong => Status::Limit {
            which: Bound::Source,
            found: 1_048_577,
        },
        Refusal::Lex(fault) => lex_status(fault),
        Refusal::Parse { fault, at } => parse_status(fault, at),
        Refusal::Types(fault) => type_status(fault),
        Refusal::Calls { fault, at } => call_status(fault, at),
        Refusal::Flow(fault) => flow_status(fault),
        Refusal::Memory => Status::Memory,
    }
}
