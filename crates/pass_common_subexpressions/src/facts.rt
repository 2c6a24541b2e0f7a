// Which facts an instruction keeps, and which it teaches.
ghost use Rattle.std.specs.Prelude.{◌≡◌, Some, true, map, IfSome};
ghost use Rattle.low_ir.specs.Code.{Do, Load, Operate, Store};
ghost use Rattle.low_ir.specs.View.{address_of, base_of, claim_of, instr_of, operand_of};
ghost use Rattle.pass_common_subexpressions_law.specs.Facts.{Loads, IsOther, Keeps, Computes, Spares, SparesFact, Teaches, giving, source_reads};
ghost use Rattle.pass_common_subexpressions.specs.Making.{fact_of, source_of};

use super::operands::{are_spared, same_operator};
use super::tests::{are_apart, is_spared, same_load};
use low_ir::instruction::{Address, Base, Instr, Operand};
use low_ir::object::Kind;
use low_parts::accesses::same_operand;
use rv_core::Alu;

/// What gives a value.
#[derive(Clone, Copy)]
pub enum Source {
    /// A load of this kind from this address.
    Loads {
        kind: Kind,
        address: Address,
    },
    Computes {
        operator: Alu,
        left: Operand,
        right: Operand,
    },
}

/// That a register holds what a source would give.
#[derive(Clone, Copy)]
pub struct Fact {
    pub source: Source,
    pub register: u32,
}

/// Whether a source is a load of this kind from this address.
fn is_load(source: Source, kind: Kind, address: Address) -> bool
    ensures { result ≡ true → source_of source ≡ Loads kind (address_of address) }
{
    match source {
        Source::Loads {
            kind: other,
            address: same,
        } => same_load(other, same, kind, address),
        Source::Computes { .. } => false,
    }
}

/// Whether a source is this operation.
fn is_result(source: Source, operator: Alu, left: Operand, right: Operand) -> bool
    ensures { result ≡ true → source_of source ≡ Computes operator (operand_of left) (operand_of right) }
{
    match source {
        Source::Loads { .. } => false,
        Source::Computes {
            operator: other,
            left: first,
            right: second,
        } => {
            same_operator(other, operator)
                && same_operand(first, left)
                && same_operand(second, right)
        }
    }
}

pub fn same_source(a: Source, b: Source) -> bool
    ensures { result ≡ true → source_of a ≡ source_of b }
{
    match b {
        Source::Loads { kind, address } => is_load(a, kind, address),
        Source::Computes {
            operator,
            left,
            right,
        } => is_result(a, operator, left, right),
    }
}

/// Whether a source doesn't read a register.
fn source_spares(source: Source, register: u32) -> bool
    ensures { result ≡ true → Spares register (source_reads (source_of source)) }
{
    match source {
        Source::Loads { address, .. } => is_spared(address, register),
        Source::Computes { left, right, .. } => are_spared(left, right, register),
    }
}

/// Whether a fact doesn't name a register.
fn spares(fact: Fact, register: u32) -> bool
    ensures { result ≡ true → SparesFact (Some register) (fact_of fact) }
{
    fact.register != register && source_spares(fact.source, register)
}

/// Whether an access of this kind with this base is of another element than a source.
fn is_other(claims: &[Vec<u32>], source: Source, kind: Kind, base: Base) -> bool
    ensures { result ≡ true → IsOther (map claim_of claims.now) kind (base_of base) (source_of source) }
{
    match source {
        Source::Loads { kind: own, address } => are_apart(claims, own, address.base, kind, base),
        Source::Computes { .. } => true,
    }
}

/// Whether a fact is as true behind an instruction as before it.
pub fn stays(claims: &[Vec<u32>], instr: &Instr, fact: Fact) -> bool
    ensures { result ≡ true → Keeps (map claim_of claims.now) (instr_of instr.now) (fact_of fact) }
{
    match instr {
        Instr::Set { into, .. } => spares(fact, *into),
        Instr::Operate { into, .. } => spares(fact, *into),
        Instr::Point { into, .. } => spares(fact, *into),
        Instr::Load { into, .. } => spares(fact, *into),
        Instr::Store { kind, address, .. } => is_other(claims, fact.source, *kind, address.base),
        Instr::Put { .. } => true,
        Instr::Get { into } => spares(fact, *into),
        Instr::Call { .. } => false,
    }
}

/// What is known behind a load: its register holds the element, if that isn't where the address came from.
fn loaded(kind: Kind, into: u32, address: Address) -> Option<Fact>
    ensures { IfSome result (λ f. Teaches (Do (Load kind into (address_of address))) (fact_of f)) }
{
    if is_spared(address, into) {
        Some(Fact {
            source: Source::Loads { kind, address },
            register: into,
        })
    } else {
        None
    }
}

/// What is known behind an operation: its register holds the result, if that isn't where an operand came from
/// and the operator is one that is looked for.
fn computed(operator: Alu, into: u32, left: Operand, right: Operand) -> Option<Fact>
    ensures { IfSome result (λ f. Teaches (Do (Operate operator into (operand_of left) (operand_of right))) (fact_of f)) }
{
    if same_operator(operator, operator) && are_spared(left, right, into) {
        Some(Fact {
            source: Source::Computes {
                operator,
                left,
                right,
            },
            register: into,
        })
    } else {
        None
    }
}

/// What is known behind a store: the register holds the element, where that is a word.
fn stored(kind: Kind, address: Address, value: Operand) -> Option<Fact>
    ensures { IfSome result (λ f. Teaches (Do (Store kind (address_of address) (operand_of value))) (fact_of f)) }
{
    match kind {
        Kind::Word => match value {
            Operand::Register(register) => Some(Fact {
                source: Source::Loads {
                    kind: Kind::Word,
                    address,
                },
                register,
            }),
            Operand::Constant(_) => None,
        },
        _ => None,
    }
}

/// What an instruction teaches.
pub fn taught(instr: &Instr) -> Option<Fact>
    ensures { IfSome result (λ f. Teaches (instr_of instr.now) (fact_of f)) }
{
    match instr {
        Instr::Operate {
            operator,
            into,
            left,
            right,
        } => computed(*operator, *into, *left, *right),
        Instr::Load {
            kind,
            into,
            address,
        } => loaded(*kind, *into, *address),
        Instr::Store {
            kind,
            address,
            value,
        } => stored(*kind, *address, *value),
        _ => None,
    }
}

/// A source, and where its value goes.
#[derive(Clone, Copy)]
pub struct Given {
    pub source: Source,
    pub into: u32,
}

/// What an instruction gives, if that is what facts speak of.
pub fn given_by(instr: &Instr) -> Option<Given>
    ensures { IfSome result (λ g. instr_of instr.now ≡ Do (giving g.into (source_of g.source))) }
{
    match instr {
        Instr::Operate {
            operator,
            into,
            left,
            right,
        } => Some(Given {
            source: Source::Computes {
                operator: *operator,
                left: *left,
                right: *right,
            },
            into: *into,
        }),
        Instr::Load {
            kind,
            into,
            address,
        } => Some(Given {
            source: Source::Loads {
                kind: *kind,
                address: *address,
            },
            into: *into,
        }),
        _ => None,
    }
}
