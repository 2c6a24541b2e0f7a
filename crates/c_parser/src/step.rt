ghost use Rattle.std.specs.Prelude.{◌≤◌};
ghost use Rattle.parse_begun.specs.Depths.{state_depth};
ghost use Rattle.parse_begun.specs.declared.begun.State.TheVariants.{OfDeclarator, OfHead, OfOperand, OfProto, OfReceiver, OfStatement};
ghost use Rattle.parse_begun.specs.View.{Gives, Names, state_of};
ghost use Rattle.parse_grammar.specs.Machine.{step};
ghost use Rattle.parse_words.specs.Lexemes.{word_said};

use parse_begun::begun::{
    AtDeclarator, AtHead, AtOperand, AtProto, AtReceiver, AtStatement, Declarator, Frames, Head,
    Proto, Receiver, Stack, State,
};
use parse_begun::refusal::Refusal;
use parse_declaration::object::{
    begin_initial, begin_size, end_object_by, go_on_declared, go_on_listed, go_on_named,
    go_on_shaped,
};
use parse_declaration::parameter::{begin_param, begin_params, end_params, go_on_param};
use parse_declaration::specifiers::{begin_further, go_on_specified};
use parse_ending::behind::{begin_arguments, begin_bracket, behind_operand, go_on_type};
use parse_operand::operand::begin_operand;
use parse_statement::begins::{begin_any_statement, begin_bounded_loop};
use parse_statement::heads::{
    begin_answer, begin_loop_start, begin_loop_step, begin_loop_test, close_statement, open_for,
    open_test,
};
use parse_statement::items::{end_default, go_on_among, go_on_at_file_level, open_choice};
use parse_statement::settle::settle_statement;
use parse_words::Word;
use std::alloc::Global;

/// A token where an operand is wanted or stands, or within it.
fn step_operand(alloc: Global, word: Word, at: AtOperand, under: Stack) -> Result<State, Refusal>
    requires { state_depth (OfOperand at under) ≤ 256 }
    ensures { (f : Names) → Gives f result (step (state_of f (OfOperand at under)) (word_said f word)) }
{
    match at {
        AtOperand::Wants => begin_operand(alloc, word, under),
        AtOperand::Has(tree) => behind_operand(alloc, word.lexeme, tree, under),
        AtOperand::Opened { at } => begin_bracket(alloc, word, at, under),
        AtOperand::Typed { specifiers, at } => {
            go_on_type(alloc, word.lexeme, specifiers, at, under)
        }
        AtOperand::Called(function) => begin_arguments(alloc, word, function, under),
    }
}

/// A token where a statement begins or has ended, or within its head.
fn step_statement(
    alloc: Global,
    word: Word,
    at: AtStatement,
    under: Box<Frames>,
) -> Result<State, Refusal>
    requires { state_depth (OfStatement at under) ≤ 256 }
    ensures { (f : Names) → Gives f result (step (state_of f (OfStatement at under)) (word_said f word)) }
{
    match at {
        AtStatement::Begins => begin_any_statement(alloc, word, under),
        AtStatement::Stands(statement) => {
            settle_statement(alloc, Box::into_inner(under), word, statement)
        }
        AtStatement::Closes(statement) => close_statement(word.lexeme, statement, under),
        AtStatement::Bounded(bound) => begin_bounded_loop(alloc, word, bound, under),
        AtStatement::Chooses { test, at } => open_choice(alloc, word.lexeme, test, at, under),
        AtStatement::Answers { at } => begin_answer(alloc, word, at, under),
        AtStatement::Loops(head) => open_for(word.lexeme, head, under),
        AtStatement::LoopStarts(head) => begin_loop_start(alloc, word, head, under),
        AtStatement::LoopTests(head) => begin_loop_test(alloc, word, head, under),
        AtStatement::LoopSteps(head) => begin_loop_step(alloc, word, head, under),
    }
}

/// A token between the objects of a declaration.
fn step_head(word: Word, at: AtHead, head: Head) -> Result<State, Refusal>
    requires { state_depth (OfHead at head) ≤ 256 }
    ensures { (f : Names) → Gives f result (step (state_of f (OfHead at head)) (word_said f word)) }
{
    match at {
        AtHead::Further => begin_further(word, head),
        AtHead::Ended(object) => end_object_by(word.lexeme, head, object),
    }
}

/// A token where an initial value begins, or behind a comma of a list of them.
fn step_receiver(
    alloc: Global,
    word: Word,
    at: AtReceiver,
    object: Receiver,
) -> Result<State, Refusal>
    requires { state_depth (OfReceiver at object) ≤ 256 }
    ensures { (f : Names) → Gives f result (step (state_of f (OfReceiver at object)) (word_said f word)) }
{
    match at {
        AtReceiver::Initial => begin_initial(alloc, word, object),
        AtReceiver::Listed(front) => go_on_listed(alloc, word, object, front),
    }
}

/// A token behind the name of an object or of a parameter.
fn step_declarator(
    alloc: Global,
    word: Word,
    at: AtDeclarator,
    declarator: Declarator,
) -> Result<State, Refusal>
    requires { state_depth (OfDeclarator at declarator) ≤ 256 }
    ensures { (f : Names) → Gives f result (step (state_of f (OfDeclarator at declarator)) (word_said f word)) }
{
    match at {
        AtDeclarator::Declares => go_on_declared(word.lexeme, declarator),
        AtDeclarator::Sizing => begin_size(alloc, word, declarator),
        AtDeclarator::Shaped(shape) => go_on_shaped(word.lexeme, declarator, shape),
    }
}

/// A token behind the first name of a declaration, or among the parameters of a function.
fn step_proto(alloc: Global, word: Word, at: AtProto, proto: Proto) -> Result<State, Refusal>
    requires { state_depth (OfProto at proto) ≤ 256 }
    ensures { (f : Names) → Gives f result (step (state_of f (OfProto at proto)) (word_said f word)) }
{
    match at {
        AtProto::Named => go_on_named(alloc, word.lexeme, proto),
        AtProto::ParamsOpen => begin_params(alloc, word, proto),
        AtProto::ParamNext(front) => begin_param(alloc, word, proto, front),
        AtProto::ParamSpecified {
            front,
            specifiers,
            at,
        } => go_on_param(word.lexeme, proto, front, specifiers, at),
        AtProto::ParamsDone(params) => end_params(alloc, word, proto, params),
    }
}

/// One step of the machine: what a token does there.
pub fn step(alloc: Global, state: State, word: Word) -> Result<State, Refusal>
    requires { state_depth state ≤ 256 }
    ensures { (f : Names) → Gives f result (step (state_of f state) (word_said f word)) }
{
    match state {
        State::OfOperand(at, under) => step_operand(alloc, word, at, under),
        State::OfStatement(at, under) => step_statement(alloc, word, at, under),
        State::OfHead(at, head) => step_head(word, at, head),
        State::OfReceiver(at, object) => step_receiver(alloc, word, at, object),
        State::OfDeclarator(at, declarator) => step_declarator(alloc, word, at, declarator),
        State::OfProto(at, proto) => step_proto(alloc, word, at, proto),
        State::File(front) => go_on_at_file_level(alloc, word, front),
        State::Among(front, braces) => go_on_among(alloc, word, front, braces),
        State::Defaults { front, braces, at } => end_default(word.lexeme, front, braces, at),
        State::Opens(test) => open_test(word.lexeme, test),
        State::Specified {
            specifiers,
            at,
            scope,
        } => go_on_specified(word, specifiers, at, scope),
    }
}
