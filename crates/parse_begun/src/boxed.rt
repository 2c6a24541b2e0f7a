// Finished parts in boxes, as the nodes above them hold them. What is left where memory runs out is let go here.
ghost use Rattle.std.specs.Prelude.{◌≡◌, IfErr, IfOk};
ghost use Rattle.parse_begun.specs.declared.refusal.Refusal.TheVariants.{Memory};

use super::part::{Part, StatementPart};
use super::refusal::Refusal;
use c_tree::expression::Expr;
use c_tree::statement::{ForHead, Statement};
use std::alloc::Global;

impl Part {
    /// Its tree in a box.
    pub fn into_box(self, alloc: Global) -> Result<Box<Expr>, Refusal>
        ensures ok { IfOk result (λ b. b.value ≡ self.tree) }
        ensures err { IfErr result (λ e. e ≡ Memory) }
    {
        Ok(Box::new(alloc, self.tree)?)
    }
}

impl StatementPart {
    /// Its statement in a box.
    pub fn into_box(self, alloc: Global) -> Result<Box<Statement>, Refusal>
        ensures ok { IfOk result (λ b. b.value ≡ self.statement) }
        ensures err { IfErr result (λ e. e ≡ Memory) }
    {
        Ok(Box::new(alloc, self.statement)?)
    }
}

/// Two trees in boxes, or neither.
pub fn two_trees(
    alloc: Global,
    first: Part,
    second: Part,
) -> Result<(Box<Expr>, Box<Expr>), Refusal>
    ensures first { IfOk result (λ p. p.0.value ≡ first.tree) }
    ensures second { IfOk result (λ p. p.1.value ≡ second.tree) }
    ensures err { IfErr result (λ e. e ≡ Memory) }
{
    match first.into_box(alloc) {
        Ok(first) => match second.into_box(alloc) {
            Ok(second) => Ok((first, second)),
            Err(refusal) => {
                drop(first);
                Err(refusal)
            }
        },
        Err(refusal) => {
            second.let_go();
            Err(refusal)
        }
    }
}

/// Three trees in boxes, or none.
pub fn three_trees(
    alloc: Global,
    first: Part,
    second: Part,
    third: Part,
) -> Result<(Box<Expr>, Box<Expr>, Box<Expr>), Refusal>
    ensures first { IfOk result (λ p. p.0.value ≡ first.tree) }
    ensures second { IfOk result (λ p. p.1.value ≡ second.tree) }
    ensures third { IfOk result (λ p. p.2.value ≡ third.tree) }
    ensures err { IfErr result (λ e. e ≡ Memory) }
{
    match two_trees(alloc, second, third) {
        Ok((second, third)) => match first.into_box(alloc) {
            Ok(first) => Ok((first, second, third)),
            Err(refusal) => {
                drop(second);
                drop(third);
                Err(refusal)
            }
        },
        Err(refusal) => {
            first.let_go();
            Err(refusal)
        }
    }
}

/// Two statements in boxes, or neither.
pub fn two_statements(
    alloc: Global,
    first: StatementPart,
    second: StatementPart,
) -> Result<(Box<Statement>, Box<Statement>), Refusal>
    ensures first { IfOk result (λ p. p.0.value ≡ first.statement) }
    ensures second { IfOk result (λ p. p.1.value ≡ second.statement) }
    ensures err { IfErr result (λ e. e ≡ Memory) }
{
    match first.into_box(alloc) {
        Ok(first) => match second.into_box(alloc) {
            Ok(second) => Ok((first, second)),
            Err(refusal) => {
                drop(first);
                Err(refusal)
            }
        },
        Err(refusal) => {
            second.let_go();
            Err(refusal)
        }
    }
}

fn boxed_head(alloc: Global, head: ForHead) -> Result<Box<ForHead>, Refusal>
    ensures ok { IfOk result (λ b. b.value ≡ head) }
    ensures err { IfErr result (λ e. e ≡ Memory) }
{
    Ok(Box::new(alloc, head)?)
}

/// The head of a `for` and its body in boxes, or neither.
pub fn head_and_body(
    alloc: Global,
    head: ForHead,
    body: StatementPart,
) -> Result<(Box<ForHead>, Box<Statement>), Refusal>
    ensures head { IfOk result (λ p. p.0.value ≡ head) }
    ensures body { IfOk result (λ p. p.1.value ≡ body.statement) }
    ensures err { IfErr result (λ e. e ≡ Memory) }
{
    match boxed_head(alloc, head) {
        Ok(head) => match body.into_box(alloc) {
            Ok(body) => Ok((head, body)),
            Err(refusal) => {
                drop(head);
                Err(refusal)
            }
        },
        Err(refusal) => {
            body.let_go();
            Err(refusal)
        }
    }
}
