// The walk over statements.
ghost use Rattle.std.specs.Prelude.{◌≡◌, ◌+◌, ◌-◌, ℕ, All, IfOk, Some};
ghost use Rattle.facts_definitions.specs.Most.{bounds_at};
ghost use Rattle.facts_definitions.specs.Starts.{starts};
ghost use Rattle.c_tree.specs.Named.{map_option};
ghost use Rattle.types_tree.specs.Tree.{If, IfElse, Switch};
ghost use Rattle.types_tree.specs.View.{declaration_of, expr_of as source_of, items_of, start_of, statement_of};
ghost use Rattle.high_code.specs.Code.{joined};
ghost use Rattle.high_ir.specs.Tree.{End};
ghost use Rattle.high_ir.specs.View.{statement_of as made_of};
ghost use Rattle.plan_definition.specs.declared.purpose.Purpose.TheVariants.{Value};
ghost use Rattle.plan_definition.specs.Statements as plans;
ghost use Rattle.plan_definition.specs.Statements.{all_planned, body_planned, declared, default_number, guarded, label_tests, loops_before, parts_planned, planned, round_of, started, stepped, tested};
ghost use Rattle.plan_definition.specs.Values.{firm, in_block, made};
ghost use Rattle.make_pieces.specs.View.{code_of, leaf_expr, steady_of};
ghost use Rattle.make_statement.specs.Parts.{item_parts, labels_in, parts_of};
ghost use Rattle.make_statement.specs.Planned.{IsSmall, exits_of, item_planned, plan_said, switched_to, within_first, within_other};

use super::continuing::{continues, ends_in_block, rounded};
use super::declaring::{declared, started};
use super::exits::Exits;
use super::labels::{Choice, default_number, is_label, label_tests};
use super::loops::{bounds_at, looped};
use super::parts::Parts;
use super::plan::Plan;
use super::returning::returned;
use facts_definitions::Starts;
use facts_most::{is_always, starts};
use high_ir::expression::Expr;
use high_ir::statement::Statement;
use high_ir::statements::let_go;
use make_expression::{choose, chosen, code, is_joint, value};
use make_loops::loops_before;
use make_pieces::numbers::sum;
use make_pieces::{Code, Steady};
use plan_definition::Purpose;
use std::alloc::Global;
use types_tree::declaration::Declaration;
use types_tree::expression::Expr as Source;
use types_tree::statement::{ForStart, Item, LoopId, Statement as Typed};
use wcc_base::Memory;

/// A test of a loop, which leaves it; one that is a constant other than 0 is none.
fn tested(plan: &Plan, test: &Source, k: u32) -> Result<Code, Memory>
    ensures { IfOk result (λ c. code_of c ≡ tested (plan_said plan.now) (Some (source_of test.now)) k) }
{
    if is_always(test) {
        return Ok(Code::new(plan.scope.alloc));
    }
    code(&plan.scope, Purpose::Unless { depth: 0 }, test, k)
}

/// The test of a `for`, where it has one.
fn tested_if(plan: &Plan, test: &Option<Source>, k: u32) -> Result<Code, Memory>
    ensures { IfOk result (λ c. code_of c ≡ tested (plan_said plan.now) (map_option source_of test.now) k) }
{
    match test {
        None => Ok(Code::new(plan.scope.alloc)),
        Some(test) => tested(plan, test, k),
    }
}

/// The step of a `for`, where it has one.
fn stepped(plan: &Plan, step: &Option<Source>, k: u32) -> Result<Code, Memory>
    ensures { IfOk result (λ c. code_of c ≡ stepped (plan_said plan.now) (map_option source_of step.now) k) }
{
    match step {
        None => Ok(Code::new(plan.scope.alloc)),
        Some(step) => code(&plan.scope, Purpose::Effect, step, k),
    }
}

/// From how many up to how many times an entry of a loop of this number starts.
fn starts_of(plan: &Plan, statement: &Typed, number: u32) -> Starts
    requires { All IsSmall plan.now.bounds.now }
    ensures { result ≡ starts (statement_of statement.now) (bounds_at plan.now.bounds.now number) }
{
    starts(statement, bounds_at(plan.bounds, number))
}

/// Code, and then that of an expression for a purpose.
fn and_code(
    plan: &Plan,
    before: Code,
    purpose: Purpose,
    expr: &Source,
    k: u32,
) -> Result<Code, Memory>
    ensures { IfOk result (λ c. code_of c ≡ joined (code_of before) (made plan.now.scope.homes.now purpose (source_of expr.now) k).code) }
{
    match code(&plan.scope, purpose, expr, k) {
        Ok(code) => before.joined(code),
        Err(memory) => {
            before.let_go();
            Err(memory)
        }
    }
}

/// Code, and then a declaration.
fn and_declared(
    plan: &Plan,
    before: Code,
    declaration: &Declaration,
    k: u32,
) -> Result<Code, Memory>
    ensures { IfOk result (λ c. code_of c ≡ joined (code_of before) (declared (plan_said plan.now) (declaration_of declaration.now) 0 k)) }
{
    match declared(plan, declaration, 0, k) {
        Ok(code) => before.joined(code),
        Err(memory) => {
            before.let_go();
            Err(memory)
        }
    }
}

/// Code, and then the step of a `for`.
fn and_step(plan: &Plan, before: Code, step: &Option<Source>, k: u32) -> Result<Code, Memory>
    ensures { IfOk result (λ c. code_of c ≡ joined (code_of before) (stepped (plan_said plan.now) (map_option source_of step.now) k)) }
{
    match step {
        None => Ok(before),
        Some(step) => and_code(plan, before, Purpose::Effect, step, k),
    }
}

/// The turn of a `for` behind its test.
fn behind_test(plan: &Plan, test: &Option<Source>, k: u32, turn: Code) -> Result<Code, Memory>
    ensures { IfOk result (λ c. code_of c ≡ joined (tested (plan_said plan.now) (map_option source_of test.now) k) (code_of turn)) }
{
    match tested_if(plan, test, k) {
        Ok(test) => test.joined(turn),
        Err(memory) => {
            turn.let_go();
            Err(memory)
        }
    }
}

/// A loop behind what stands first in its head.
fn and_started(plan: &Plan, start: &ForStart, k: u32, looped: Code) -> Result<Code, Memory>
    ensures { IfOk result (λ c. code_of c ≡ joined (started (plan_said plan.now) (start_of start.now) k) (code_of looped)) }
{
    match started(plan, start, k) {
        Ok(start) => start.joined(looped),
        Err(memory) => {
            looped.let_go();
            Err(memory)
        }
    }
}

/// The blocks that exits leave within the two ways of a choice, which jumps put into blocks.
fn within_ways(joint: bool, exits: Exits) -> Result<(Exits, Exits), Memory>
    ensures first { IfOk result (λ p. exits_of p.0 ≡ within_first joint (exits_of exits)) }
    ensures other { IfOk result (λ p. exits_of p.1 ≡ within_other joint (exits_of exits)) }
{
    if !joint {
        return Ok((exits, exits));
    }
    let other = exits.deeper()?;
    Ok((other.deeper()?, other))
}

/// Of a loop behind its head, the number in the high form.
fn number_behind(number: LoopId, start: &ForStart) -> Result<u32, Memory>
    ensures { IfOk result (λ n. n ≡ number.0 - 1 + loops_before (start_of start.now)) }
{
    sum(number.0.saturating_sub(1), loops_before(start)?)
}

/// The word of a switch, the number of its default, and the tests of its labels.
#[derive(Drop)]
struct Selector {
    word: Steady,
    default: u32,
    tests: Code,
}

fn tested_word(
    plan: &Plan,
    test: &Source,
    k: u32,
    items: &[Item],
    noted: u32,
) -> Result<Selector, Memory>
    ensures word { IfOk result (λ s. steady_of s.word ≡ firm k (made plan.now.scope.homes.now Value (source_of test.now) k) End) }
    ensures default { IfOk result (λ s. s.default ≡ default_number (items_of items.now) 1) }
    ensures tests { IfOk result (λ s. code_of s.tests ≡ label_tests (leaf_expr s.word.value) noted (items_of items.now) 1) }
{
    let alloc = plan.scope.alloc;
    let default = default_number(items)?;
    let word = value(&plan.scope, test, k)?.firm(k, Code::new(alloc))?;
    let choice_by = Choice {
        word: word.value,
        noted,
    };
    match label_tests(alloc, choice_by, items) {
        Ok(tests) => Ok(Selector {
            word,
            default,
            tests,
        }),
        Err(memory) => {
            word.let_go();
            Err(memory)
        }
    }
}

/// A choice by a word: which label is noted, and then the parts.
fn switched(alloc: Global, selector: Selector, noted: u32, parts: Code) -> Result<Code, Memory>
    ensures { IfOk result (λ c. code_of c ≡ switched_to (steady_of selector.word) noted selector.default (code_of selector.tests) (code_of parts)) }
{
    let Selector {
        word,
        default,
        tests,
    } = selector;
    let Steady { code, .. } = word;
    let note = Statement::Set {
        variable: noted,
        value: Expr::Constant(default),
    };
    match block_behind(alloc, tests, parts) {
        Ok(behind) => match code.then(note) {
            Ok(code) => code.joined(behind),
            Err(memory) => {
                behind.let_go();
                Err(memory)
            }
        },
        Err(memory) => {
            code.let_go();
            let_go(note);
            Err(memory)
        }
    }
}

/// Tests, and then the block of the parts that they choose from.
fn block_behind(alloc: Global, tests: Code, parts: Code) -> Result<Code, Memory>
    ensures { IfOk result (λ c. code_of c ≡ joined (code_of tests) (in_block (code_of parts))) }
{
    match parts.in_block(alloc) {
        Ok(block) => tests.joined(block),
        Err(memory) => {
            tests.let_go();
            Err(memory)
        }
    }
}

/// A statement. Its temporaries are the variables from `k` on.
#[cycle(statements)]
fn planned(plan: &Plan, statement: &Typed, k: u32, exits: Exits) -> Result<Code, Memory>
    requires { All IsSmall plan.now.bounds.now }
    ensures { IfOk result (λ c. code_of c ≡ planned (plan_said plan.now) (statement_of statement.now) k (exits_of exits)) }
{
    let alloc = plan.scope.alloc;
    match statement {
        Typed::Block { items, .. } => { all_planned(plan, items, k, exits) }
        Typed::Empty { .. } => Ok(Code::new(alloc)),
        Typed::Evaluate { value, .. } => { code(&plan.scope, Purpose::Effect, value, k) }
        Typed::Marker { number, .. } => {
            let id = sum(plan.functions, number.0)?;
            Code::alone(alloc, Statement::Mark { id })
        }
        Typed::If { test, then, .. } => { chosen_if(plan, test, then, k, exits) }
        Typed::IfElse {
            test,
            then,
            otherwise,
            ..
        } => { chosen_else(plan, test, then, otherwise, k, exits) }
        Typed::While {
            number,
            test,
            body,
            ..
        } => {
            let turn = and_round(plan, tested(plan, test, k)?, body, k)?;
            let starts = starts_of(plan, statement, number.0);
            looped(alloc, number.0.saturating_sub(1), starts, turn)
        }
        Typed::Do {
            number,
            body,
            test,
            ..
        } => {
            let body = round(plan, body, k)?;
            let turn = and_code(plan, body, Purpose::Unless { depth: 0 }, test, k)?;
            let starts = starts_of(plan, statement, number.0);
            looped(alloc, number.0.saturating_sub(1), starts, turn)
        }
        Typed::For {
            number,
            start,
            test,
            step,
            body,
            ..
        } => {
            let id = number_behind(*number, start)?;
            let turn = and_step(plan, round(plan, body, k)?, step, k)?;
            let turn = behind_test(plan, test, k, turn)?;
            let starts = starts_of(plan, statement, number.0);
            let looped = looped(alloc, id, starts, turn)?;
            and_started(plan, start, k, looped)
        }
        Typed::Switch { test, items, .. } => { chosen_part(plan, test, items, k, exits) }
        Typed::Break { .. } => { Code::alone(alloc, Statement::Leave { depth: exits.out }) }
        Typed::Continue { .. } => { Code::alone(alloc, Statement::Leave { depth: exits.next }) }
        Typed::Return { value, .. } => { returned(plan, value, k) }
    }
}

/// An `if` without an `else`.
#[cycle(statements)]
fn chosen_if(plan: &Plan, test: &Source, then: &Typed, k: u32, exits: Exits) -> Result<Code, Memory>
    requires { All IsSmall plan.now.bounds.now }
    ensures { IfOk result (λ c. (at : ℕ) → code_of c ≡ planned (plan_said plan.now) (If (source_of test.now) (statement_of then.now) at) k (exits_of exits)) }
{
    let alloc = plan.scope.alloc;
    if is_joint(test) {
        let deeper = exits.deeper()?;
        let jumps = code(&plan.scope, Purpose::Unless { depth: 0 }, test, k)?;
        let code = and_planned(plan, jumps, then, k, deeper)?;
        return code.in_block(alloc);
    }
    let first = planned(plan, then, k, exits)?;
    match value(&plan.scope, test, k) {
        Ok(test) => chosen(alloc, test, first, Code::new(alloc)),
        Err(memory) => {
            first.let_go();
            Err(memory)
        }
    }
}

/// An `if` with an `else`.
#[cycle(statements)]
fn chosen_else(
    plan: &Plan,
    test: &Source,
    then: &Typed,
    otherwise: &Typed,
    k: u32,
    exits: Exits,
) -> Result<Code, Memory>
    requires { All IsSmall plan.now.bounds.now }
    ensures { IfOk result (λ c. (at : ℕ) → code_of c ≡ planned (plan_said plan.now) (IfElse (source_of test.now) (statement_of then.now) (statement_of otherwise.now) at) k (exits_of exits)) }
{
    let (first, other) = within_ways(is_joint(test), exits)?;
    let first = planned(plan, then, k, first)?;
    match planned(plan, otherwise, k, other) {
        Ok(other) => choose(&plan.scope, test, k, first, other),
        Err(memory) => {
            first.let_go();
            Err(memory)
        }
    }
}

/// A `switch`: its test, the number of the label that it chooses, and its parts.
#[cycle(statements)]
fn chosen_part(
    plan: &Plan,
    test: &Source,
    items: &[Item],
    k: u32,
    exits: Exits,
) -> Result<Code, Memory>
    requires { All IsSmall plan.now.bounds.now }
    ensures { IfOk result (λ c. (at : ℕ) → code_of c ≡ planned (plan_said plan.now) (Switch (source_of test.now) (items_of items.now) at) k (exits_of exits)) }
{
    let alloc = plan.scope.alloc;
    let noted = sum(k, 1)?;
    let parts = parts(plan, noted, items, sum(k, 2)?, exits.in_switch()?)?;
    match tested_word(plan, test, k, items, noted) {
        Ok(selector) => switched(alloc, selector, noted, parts),
        Err(memory) => {
            parts.let_go();
            Err(memory)
        }
    }
}

/// Code, and then a statement.
#[cycle(statements)]
fn and_planned(
    plan: &Plan,
    before: Code,
    statement: &Typed,
    k: u32,
    exits: Exits,
) -> Result<Code, Memory>
    requires { All IsSmall plan.now.bounds.now }
    ensures { IfOk result (λ c. code_of c ≡ joined (code_of before) (planned (plan_said plan.now) (statement_of statement.now) k (exits_of exits))) }
{
    match planned(plan, statement, k, exits) {
        Ok(code) => before.joined(code),
        Err(memory) => {
            before.let_go();
            Err(memory)
        }
    }
}

/// The body of a loop.
#[cycle(statements)]
fn round(plan: &Plan, body: &Typed, k: u32) -> Result<Code, Memory>
    requires { All IsSmall plan.now.bounds.now }
    ensures { IfOk result (λ c. code_of c ≡ round_of (statement_of body.now) (planned (plan_said plan.now) (statement_of body.now) k)) }
{
    let continues = continues(body);
    let code = planned(plan, body, k, Exits::in_loop(continues))?;
    rounded(plan.scope.alloc, continues, ends_in_block(body), code)
}

/// Code, and then the body of a loop.
#[cycle(statements)]
fn and_round(plan: &Plan, before: Code, body: &Typed, k: u32) -> Result<Code, Memory>
    requires { All IsSmall plan.now.bounds.now }
    ensures { IfOk result (λ c. code_of c ≡ joined (code_of before) (round_of (statement_of body.now) (planned (plan_said plan.now) (statement_of body.now) k))) }
{
    match round(plan, body, k) {
        Ok(code) => before.joined(code),
        Err(memory) => {
            before.let_go();
            Err(memory)
        }
    }
}

/// Code, and then an item of a block.
#[cycle(statements)]
fn and_item(plan: &Plan, before: Code, item: &Item, k: u32, exits: Exits) -> Result<Code, Memory>
    requires { All IsSmall plan.now.bounds.now }
    ensures { IfOk result (λ c. code_of c ≡ joined (code_of before) (item_planned (plan_said plan.now) item.now k (exits_of exits))) }
{
    match item {
        Item::Declaration(declaration) => and_declared(plan, before, declaration, k),
        Item::Statement(statement) => and_planned(plan, before, statement, k, exits),
        Item::Restriction(_) => Ok(before),
        Item::Label(_) => Ok(before),
    }
}

#[cycle(statements)]
fn all_planned(plan: &Plan, items: &[Item], k: u32, exits: Exits) -> Result<Code, Memory>
    requires { All IsSmall plan.now.bounds.now }
    ensures { IfOk result (λ c. code_of c ≡ all_planned (plan_said plan.now) (items_of items.now) k (exits_of exits)) }
{
    let mut code = Code::new(plan.scope.alloc);
    for item in items {
        code = and_item(plan, code, item, k, exits)?;
    }
    Ok(code)
}

/// The parts of a switch and one item more.
#[cycle(statements)]
fn parts_behind(
    plan: &Plan,
    noted: u32,
    item: &Item,
    k: u32,
    exits: Exits,
    parts: Parts,
) -> Result<Parts, Memory>
    requires { All IsSmall plan.now.bounds.now }
    ensures parts { IfOk result (λ p. (P : plans.Parts) → parts_of noted p P ≡ parts_of noted parts (item_parts (plan_said plan.now) noted item.now (parts.number + 1) k (exits_of exits) P)) }
    ensures number { IfOk result (λ p. p.number ≡ parts.number + labels_in item.now) }
{
    if is_label(item) {
        return parts.at_label(plan.scope.alloc, noted);
    }
    let Parts { done, part, number } = parts;
    match and_item(plan, part, item, k, exits) {
        Ok(part) => Ok(Parts { done, part, number }),
        Err(memory) => {
            done.let_go();
            Err(memory)
        }
    }
}

/// The parts of a switch, each behind the test of its label.
#[cycle(statements)]
fn parts(plan: &Plan, noted: u32, items: &[Item], k: u32, exits: Exits) -> Result<Code, Memory>
    requires { All IsSmall plan.now.bounds.now }
    ensures { IfOk result (λ c. code_of c ≡ guarded noted 0 (parts_planned (plan_said plan.now) (items_of items.now) noted 1 k (exits_of exits)).before (parts_planned (plan_said plan.now) (items_of items.now) noted 1 k (exits_of exits)).behind) }
{
    let mut parts = Parts::new(plan.scope.alloc);
    for item in items {
        parts = parts_behind(plan, noted, item, k, exits, parts)?;
    }
    parts.ended(plan.scope.alloc, noted)
}

/// The body of a function, with so many variables before its temporaries; its end gives 0.
pub fn body(plan: &Plan, items: &[Item], variables: u32) -> Result<Statement, Memory>
    requires { All IsSmall plan.now.bounds.now }
    ensures { IfOk result (λ s. made_of s ≡ body_planned (plan_said plan.now) (items_of items.now) variables) }
{
    let alloc = plan.scope.alloc;
    let code = all_planned(plan, items, variables, Exits { out: 0, next: 0 })?;
    let body = code.in_block(alloc)?.then(Statement::Return {
        value: Expr::Constant(0),
    })?;
    Ok(body.seq())
}
