ghost use Rattle.std.specs.Prelude.{◌≡◌, ◌+◌, ◌<◌, ◌≤◌, max, Some};
ghost use Rattle.c_tree.specs.Said.{Plain};
ghost use Rattle.parse_grammar.specs.Begun.{Guards, Evaluates, Initialises, Labels, Lists, Repeats, Returns, Sizes, Starts, Tests};
ghost use Rattle.parse_grammar.specs.Machine.{Goes, tested, took};
ghost use Rattle.parse_begun.specs.Depths.{head_depth, purpose_depth, test_depth};
ghost use Rattle.parse_begun.specs.View.{Gives, Names, braces_of, declarator_of, frames_of, head_of, item_parts_of, maybe_of, part_of, parts_of, purpose_of, shape_part_of, start_part_of, test_of};

use c_tree::declaration::Shape;
use c_tree::statement::ForStart;
use c_tree::token::TokenKind;
use parse_begun::begun::{
    AtDeclarator, AtHead, AtReceiver, AtStatement, Braces, Declarator, Frames, Loop, Purpose,
    Receiver, StartedFor, State, Test, TestedFor,
};
use parse_begun::list::{and_case, and_expr};
use parse_begun::part::{ItemParts, MaybePart, Part, Parts, ShapePart, StartPart};
use parse_begun::refusal::Refusal;
use parse_nodes::declaration::{end_object, object_with, valued_object};
use parse_nodes::statement::{begin_for_body, do_loop, evaluate, return_value};
use std::alloc::Global;

/// A test in round brackets is whole.
#[tactic(auto, using(parse_begun::proofs::Deeper::frames_deeper))]
fn end_test(alloc: Global, test: Test, tree: Part) -> Result<State, Refusal>
    requires { test_depth test tree.depth ≤ 256 }
    ensures { (f : Names) → Gives f result (Goes (tested (test_of f test) (part_of f tree))) }
{
    match test {
        Test::OfIf { at, under } => {
            let frame = Frames::InThen {
                test: tree,
                at,
                under,
            };
            let under = frame.boxed(alloc)?;
            Ok(State::OfStatement(AtStatement::Begins, under))
        }
        Test::OfWhile(head, under) => {
            let frame = Frames::InWhile(head, tree, under);
            let under = frame.boxed(alloc)?;
            Ok(State::OfStatement(AtStatement::Begins, under))
        }
        Test::OfDo(head, body, under) => match do_loop(alloc, head, Box::into_inner(body), tree) {
            Ok(whole) => Ok(State::OfStatement(AtStatement::Closes(whole), under)),
            Err(refusal) => {
                Frames::let_go(under);
                Err(refusal)
            }
        },
        Test::OfChoice { at, under } => Ok(State::OfStatement(
            AtStatement::Chooses { test: tree, at },
            under,
        )),
    }
}

/// A token ends a statement that is an expression.
#[tactic(auto, using(c_tree::proofs::NamedTrees::place_named))]
fn take_evaluated(under: Box<Frames>, kind: TokenKind, tree: Part) -> Result<State, Refusal>
    requires { tree.depth < 256 }
    ensures { (f : Names) → Gives f result (took (Evaluates (frames_of f under.value)) (Plain kind) (part_of f tree)) }
{
    match kind {
        TokenKind::Semicolon => Ok(State::OfStatement(AtStatement::Stands(evaluate(tree)), under)),
        _ => {
            tree.let_go();
            Err(Frames::refuse(under))
        }
    }
}

/// A token ends a value that a function returns.
fn take_returned(under: Box<Frames>, kind: TokenKind, tree: Part, at: u32) -> Result<State, Refusal>
    requires { tree.depth < 256 }
    ensures { (f : Names) → Gives f result (took (Returns at (frames_of f under.value)) (Plain kind) (part_of f tree)) }
{
    match kind {
        TokenKind::Semicolon => Ok(State::OfStatement(
            AtStatement::Stands(return_value(tree, at)),
            under,
        )),
        _ => {
            tree.let_go();
            Err(Frames::refuse(under))
        }
    }
}

/// A token ends a test.
fn take_tested(alloc: Global, test: Test, kind: TokenKind, tree: Part) -> Result<State, Refusal>
    requires { test_depth test tree.depth ≤ 256 }
    ensures { (f : Names) → Gives f result (took (Tests (test_of f test)) (Plain kind) (part_of f tree)) }
{
    match kind {
        TokenKind::RightParen => end_test(alloc, test, tree),
        _ => {
            tree.let_go();
            Err(test.refuse())
        }
    }
}

/// A token ends an initial value.
#[tactic(auto, using(parse_begun::proofs::Deeper::scope_deeper))]
fn take_value(object: Box<Receiver>, kind: TokenKind, tree: Part) -> Result<State, Refusal>
    requires { head_depth object.value.head (max object.value.shape.depth tree.depth + 1) ≤ 256 }
    ensures { (f : Names) → Gives f result (took (Initialises (head_of f object.value.head) (f object.value.name.name.0) (shape_part_of f object.value.shape) object.value.name.at) (Plain kind) (part_of f tree)) }
{
    let object = Box::into_inner(object);
    let whole = valued_object(object.name, object.shape, tree);
    end_object(kind, object.head, whole)
}

/// An expression in place of one that may be missing.
fn some(tree: Part) -> MaybePart
    ensures { (f : Names) → maybe_of f result ≡ Some (part_of f tree) }
{
    MaybePart {
        tree: Some(tree.tree),
        depth: tree.depth,
    }
}

/// A token ends the first expression of a `for`.
fn take_started(
    under: Box<Frames>,
    kind: TokenKind,
    tree: Part,
    head: Loop,
) -> Result<State, Refusal>
    ensures { (f : Names) → Gives f result (took (Starts head.bound head.at (frames_of f under.value)) (Plain kind) (part_of f tree)) }
{
    match kind {
        TokenKind::Semicolon => {
            let start = StartPart {
                start: ForStart::Expression(tree.tree),
                depth: tree.depth,
            };
            Ok(State::OfStatement(AtStatement::LoopTests(head.started(start)), under))
        }
        _ => {
            tree.let_go();
            head.let_go();
            Err(Frames::refuse(under))
        }
    }
}

/// A token ends the test of a `for`.
fn take_guarding(
    under: Box<Frames>,
    kind: TokenKind,
    tree: Part,
    head: Box<StartedFor>,
) -> Result<State, Refusal>
    ensures { (f : Names) → Gives f result (took (Guards head.value.bound (start_part_of f head.value.start) head.value.at (frames_of f under.value)) (Plain kind) (part_of f tree)) }
{
    let head = Box::into_inner(head);
    match kind {
        TokenKind::Semicolon => Ok(State::OfStatement(
            AtStatement::LoopSteps(head.tested(some(tree))),
            under,
        )),
        _ => {
            tree.let_go();
            head.let_go();
            Err(Frames::refuse(under))
        }
    }
}

/// A token ends the last expression of a `for`.
fn take_repeated(
    alloc: Global,
    under: Box<Frames>,
    kind: TokenKind,
    tree: Part,
    head: Box<TestedFor>,
) -> Result<State, Refusal>
    ensures { (f : Names) → Gives f result (took (Repeats head.value.bound (start_part_of f head.value.start) (maybe_of f head.value.test) head.value.at (frames_of f under.value)) (Plain kind) (part_of f tree)) }
{
    let head = Box::into_inner(head);
    match kind {
        TokenKind::RightParen => begin_for_body(alloc, head.headed(some(tree)), under),
        _ => {
            tree.let_go();
            head.let_go();
            Err(Frames::refuse(under))
        }
    }
}

/// A token ends a size.
fn take_size(declarator: Box<Declarator>, kind: TokenKind, tree: Part) -> Result<State, Refusal>
    ensures { (f : Names) → Gives f result (took (Sizes (declarator_of f declarator.value)) (Plain kind) (part_of f tree)) }
{
    let declarator = Box::into_inner(declarator);
    match kind {
        TokenKind::RightBracket => {
            let shape = ShapePart {
                shape: Shape::Sized(tree.tree),
                depth: tree.depth,
            };
            Ok(State::OfDeclarator(AtDeclarator::Shaped(shape), declarator))
        }
        _ => {
            tree.let_go();
            Err(declarator.refuse())
        }
    }
}

/// A token ends a value of a list.
#[tactic(auto, using(parse_begun::proofs::Deeper::scope_deeper))]
fn take_listed(
    object: Box<Receiver>,
    kind: TokenKind,
    tree: Part,
    front: Parts,
) -> Result<State, Refusal>
    requires { head_depth object.value.head (max object.value.shape.depth (max front.depth tree.depth) + 1) ≤ 256 }
    ensures { (f : Names) → Gives f result (took (Lists (head_of f object.value.head) (f object.value.name.name.0) (shape_part_of f object.value.shape) (parts_of f front) object.value.name.at) (Plain kind) (part_of f tree)) }
{
    let object = Box::into_inner(object);
    match kind {
        TokenKind::Comma => match and_expr(front, tree) {
            Ok(front) => Ok(State::OfReceiver(AtReceiver::Listed(front), object)),
            Err(refusal) => {
                object.let_go();
                Err(refusal)
            }
        },
        TokenKind::RightBrace => match object_with(object.name, object.shape, front, tree) {
            Ok(whole) => Ok(State::OfHead(AtHead::Ended(whole), object.head)),
            Err(refusal) => {
                object.head.let_go();
                Err(refusal)
            }
        },
        _ => {
            tree.let_go();
            front.let_go();
            Err(object.refuse())
        }
    }
}

/// A token ends the value of a label.
fn take_label(
    braces: Box<Braces>,
    kind: TokenKind,
    tree: Part,
    front: ItemParts,
    at: u32,
) -> Result<State, Refusal>
    requires { tree.depth < 256 }
    ensures { (f : Names) → Gives f result (took (Labels (item_parts_of f front) (braces_of f braces.value) at) (Plain kind) (part_of f tree)) }
{
    match kind {
        TokenKind::Colon => match and_case(front, tree, at) {
            Ok(front) => Ok(State::Among(front, braces)),
            Err(refusal) => {
                Braces::let_go(braces);
                Err(refusal)
            }
        },
        _ => {
            tree.let_go();
            front.let_go();
            Err(Braces::refuse(braces))
        }
    }
}

/// A whole expression is ended by a token.
#[tactic(auto, using(parse_begun::proofs::Deeper::braces_deeper, parse_begun::proofs::Deeper::frames_deeper))]
pub fn take(alloc: Global, purpose: Purpose, kind: TokenKind, tree: Part) -> Result<State, Refusal>
    requires { purpose_depth purpose tree.depth ≤ 256 }
    ensures { (f : Names) → Gives f result (took (purpose_of f purpose) (Plain kind) (part_of f tree)) }
{
    match purpose {
        Purpose::Evaluates(under) => take_evaluated(under, kind, tree),
        Purpose::Returns { at, under } => take_returned(under, kind, tree, at),
        Purpose::Tests(test) => take_tested(alloc, test, kind, tree),
        Purpose::Starts(head, under) => take_started(under, kind, tree, head),
        Purpose::Guards(head, under) => take_guarding(under, kind, tree, head),
        Purpose::Repeats(head, under) => take_repeated(alloc, under, kind, tree, head),
        Purpose::Sizes(declarator) => take_size(declarator, kind, tree),
        Purpose::Initialises(object) => take_value(object, kind, tree),
        Purpose::Lists(object, front) => take_listed(object, kind, tree, front),
        Purpose::Labels { front, braces, at } => take_label(braces, kind, tree, front, at),
    }
}
