ghost use Rattle.std.specs.Prelude.{◌≡◌, ◌+◌, ◌<◌, max, Some, IfErr, IfOk};
ghost use Rattle.c_tree.specs.Formed.{place};
ghost use Rattle.c_tree.specs.Named.{map_option};
ghost use Rattle.c_tree.specs.Size.{size_statement};
ghost use Rattle.c_tree.specs.Tree.{Block, Do, Evaluate, For, If, IfElse, NoItem, Return, Switch, While};
ghost use Rattle.c_tree.specs.View.{expr_of, items_of, start_of, statement_of};
ghost use Rattle.parse_grammar.specs.Begun.{Begins, InFor};
ghost use Rattle.parse_grammar.specs.Machine.{Goes};
ghost use Rattle.parse_begun.specs.View.{Gives, Names, frames_of, maybe_of, start_part_of};
ghost use Rattle.parse_begun.specs.declared.refusal.Refusal.TheVariants.{Memory};

use c_tree::statement::{ForHead, Statement};
use parse_begun::begun::{AtStatement, Frames, HeadedFor, Loop, State};
use parse_begun::boxed::{head_and_body, two_statements};
use parse_begun::part::{ItemParts, Part, StatementPart};
use parse_begun::refusal::Refusal;
use std::alloc::Global;

/// An expression that is a statement.
pub fn evaluate(tree: Part) -> StatementPart
    requires { tree.depth < 256 }
    ensures tree { statement_of result.statement ≡ Evaluate (expr_of tree.tree) (place (expr_of tree.tree)) }
    ensures depth { result.depth ≡ tree.depth + 1 }
{
    let depth = tree.depth + 1;
    let at = tree.tree.place();
    StatementPart {
        statement: Statement::Expression {
            value: tree.tree,
            at,
        },
        depth,
    }
}

pub fn return_value(tree: Part, at: u32) -> StatementPart
    requires { tree.depth < 256 }
    ensures tree { statement_of result.statement ≡ Return (Some (expr_of tree.tree)) at }
    ensures depth { result.depth ≡ tree.depth + 1 }
{
    let depth = tree.depth + 1;
    StatementPart {
        statement: Statement::Return {
            value: Some(tree.tree),
            at,
        },
        depth,
    }
}

pub fn do_loop(
    alloc: Global,
    head: Loop,
    body: StatementPart,
    test: Part,
) -> Result<StatementPart, Refusal>
    requires { max body.depth test.depth < 256 }
    ensures ok { IfOk result (λ p. (statement_of p.statement ≡ Do head.bound (statement_of body.statement) (expr_of test.tree) head.at) × (p.depth ≡ max body.depth test.depth + 1)) }
    ensures err { IfErr result (λ e. e ≡ Memory) }
{
    let depth = body.depth.max(test.depth) + 1;
    match body.into_box(alloc) {
        Ok(body) => Ok(StatementPart {
            statement: Statement::Do {
                bound: head.bound,
                body,
                test: test.tree,
                at: head.at,
            },
            depth,
        }),
        Err(refusal) => {
            head.let_go();
            test.let_go();
            Err(refusal)
        }
    }
}

pub fn if_then(
    alloc: Global,
    test: Part,
    then: StatementPart,
    at: u32,
) -> Result<StatementPart, Refusal>
    requires { max test.depth then.depth < 256 }
    ensures ok { IfOk result (λ p. (statement_of p.statement ≡ If (expr_of test.tree) (statement_of then.statement) at) × (p.depth ≡ max test.depth then.depth + 1)) }
    ensures err { IfErr result (λ e. e ≡ Memory) }
{
    let depth = test.depth.max(then.depth) + 1;
    match then.into_box(alloc) {
        Ok(then) => Ok(StatementPart {
            statement: Statement::If {
                test: test.tree,
                then,
                at,
            },
            depth,
        }),
        Err(refusal) => {
            test.let_go();
            Err(refusal)
        }
    }
}

pub fn while_loop(
    alloc: Global,
    head: Loop,
    test: Part,
    body: StatementPart,
) -> Result<StatementPart, Refusal>
    requires { max test.depth body.depth < 256 }
    ensures ok { IfOk result (λ p. (statement_of p.statement ≡ While head.bound (expr_of test.tree) (statement_of body.statement) head.at) × (p.depth ≡ max test.depth body.depth + 1)) }
    ensures err { IfErr result (λ e. e ≡ Memory) }
{
    let depth = test.depth.max(body.depth) + 1;
    match body.into_box(alloc) {
        Ok(body) => Ok(StatementPart {
            statement: Statement::While {
                bound: head.bound,
                test: test.tree,
                body,
                at: head.at,
            },
            depth,
        }),
        Err(refusal) => {
            head.let_go();
            test.let_go();
            Err(refusal)
        }
    }
}

pub fn if_else(
    alloc: Global,
    test: Part,
    first: StatementPart,
    second: StatementPart,
    at: u32,
) -> Result<StatementPart, Refusal>
    requires { max (max test.depth first.depth) second.depth < 256 }
    ensures ok { IfOk result (λ p. (statement_of p.statement ≡ IfElse (expr_of test.tree) (statement_of first.statement) (statement_of second.statement) at) × (p.depth ≡ max (max test.depth first.depth) second.depth + 1)) }
    ensures err { IfErr result (λ e. e ≡ Memory) }
{
    let depth = test.depth.max(first.depth).max(second.depth) + 1;
    match two_statements(alloc, first, second) {
        Ok((then, otherwise)) => Ok(StatementPart {
            statement: Statement::IfElse {
                test: test.tree,
                then,
                otherwise,
                at,
            },
            depth,
        }),
        Err(refusal) => {
            test.let_go();
            Err(refusal)
        }
    }
}

/// A statement that is one node.
pub fn leaf(statement: Statement) -> StatementPart
    requires { (size_statement (statement_of statement)).depth ≡ 1 }
    ensures { result.statement ≡ statement }
{
    StatementPart {
        statement,
        depth: 1,
    }
}

/// Behind the head of a `for` its body begins.
pub fn begin_for_body(alloc: Global, head: HeadedFor, under: Box<Frames>) -> Result<State, Refusal>
    ensures { (f : Names) → Gives f result (Goes (Begins (InFor head.bound (start_part_of f head.start) (maybe_of f head.test) (maybe_of f head.step) head.at (frames_of f under.value)))) }
{
    match head.boxed(alloc) {
        Ok(head) => {
            let under = Frames::InFor(head, under).boxed(alloc)?;
            Ok(State::OfStatement(AtStatement::Begins, under))
        }
        Err(refusal) => {
            Frames::let_go(under);
            Err(refusal)
        }
    }
}

pub fn for_loop(
    alloc: Global,
    head: HeadedFor,
    body: StatementPart,
) -> Result<StatementPart, Refusal>
    requires { max (max (max head.start.depth head.test.depth) head.step.depth) body.depth < 256 }
    ensures ok { IfOk result (λ p. (statement_of p.statement ≡ For head.bound (start_of head.start.start) (map_option expr_of head.test.tree) (map_option expr_of head.step.tree) (statement_of body.statement) head.at) × (p.depth ≡ max (max (max head.start.depth head.test.depth) head.step.depth) body.depth + 1)) }
    ensures err { IfErr result (λ e. e ≡ Memory) }
{
    let start = head.start.depth.max(head.test.depth);
    let depth = start.max(head.step.depth).max(body.depth) + 1;
    let of = Loop {
        bound: head.bound,
        at: head.at,
    };
    let parts = ForHead {
        start: head.start.start,
        test: head.test.tree,
        step: head.step.tree,
    };
    match head_and_body(alloc, parts, body) {
        Ok((head, body)) => Ok(StatementPart {
            statement: Statement::For {
                bound: of.bound,
                head,
                body,
                at: of.at,
            },
            depth,
        }),
        Err(refusal) => {
            of.let_go();
            Err(refusal)
        }
    }
}

pub fn block(items: ItemParts, at: u32) -> StatementPart
    requires { items.depth < 256 }
    ensures tree { statement_of result.statement ≡ Block (items_of NoItem items.list.items) at }
    ensures depth { result.depth ≡ items.depth + 1 }
{
    let depth = items.depth + 1;
    StatementPart {
        statement: Statement::block(items.list, at),
        depth,
    }
}

pub fn switch(test: Part, items: ItemParts, at: u32) -> StatementPart
    requires { max test.depth items.depth < 256 }
    ensures tree { statement_of result.statement ≡ Switch (expr_of test.tree) (items_of NoItem items.list.items) at }
    ensures depth { result.depth ≡ max test.depth items.depth + 1 }
{
    let depth = test.depth.max(items.depth) + 1;
    StatementPart {
        statement: Statement::switch(test.tree, items.list, at),
        depth,
    }
}
