ghost use Rattle.std.specs.Prelude.{◌≡◌, ◌+◌, ◌≤◌, false, max, IfErr, IfOk, IsTrue};
ghost use Rattle.parse_begun.specs.Depths.{declarator_depth, head_depth};
ghost use Rattle.parse_begun.specs.View.{Gives, Names, declarator_of, head_of, object_part_of, parts_of, proto_of, scope_of, shape_part_of};
ghost use Rattle.parse_begun.specs.declared.refusal.Refusal.TheVariants.{Memory};
ghost use Rattle.parse_grammar.specs.Begun.{Heading, OfObject};
ghost use Rattle.parse_grammar.specs.Machine.{declares, initial, listed, named, object_ends, shaped, sizing};
ghost use Rattle.parse_words.specs.Lexemes.{lexeme_of};
ghost use Rattle.parse_declaration.specs.Others.{IsOther};
ghost use Rattle.c_tree.specs.Said.{Plain};
ghost use Rattle.c_tree.specs.declared.token.TokenKind.TheVariants.{RightBracket};
ghost use Rattle.c_tree.specs.Tree.{Absent, Declared, Nothing, Objects, Scalar, Then};
ghost use Rattle.c_tree.specs.View.{declaration_of, object_of, row_of, shape_of};

use super::parameter::end_shaped_param;
use c_tree::declaration::Shape;
use c_tree::expression::Specifier;
use c_tree::token::TokenKind;
use parse_begun::begun::{
    AtDeclarator, AtHead, AtOperand, AtProto, AtReceiver, Declarator, Head, NameAt, Proto, Purpose,
    Receiver, Stack, State,
};
use parse_begun::list::{and_object, no_objects, no_parts};
use parse_begun::part::{DeclarationPart, ObjectPart, ObjectParts, Parts, ShapePart};
use parse_begun::refusal::Refusal;
use parse_nodes::declaration::{
    end_declaration, end_object, listed_object, object, object_declaration,
};
use parse_operand::operand::begin_operand;
use parse_words::{Lexeme, Word};
use std::alloc::Global;

/// The shape of what has no size.
fn scalar() -> ShapePart
    ensures shape { shape_of result.shape ≡ Scalar }
    ensures depth { result.depth ≡ 0 }
{
    ShapePart {
        shape: Shape::Scalar,
        depth: 0,
    }
}

/// An object is whole, and a token ends it.
pub fn end_object_by(lexeme: Lexeme, head: Head, object: ObjectPart) -> Result<State, Refusal>
    requires { head_depth head object.depth ≤ 256 }
    ensures { (f : Names) → Gives f result (object_ends (lexeme_of f lexeme) (head_of f head) (object_part_of f object)) }
{
    match lexeme {
        Lexeme::Plain(kind) => end_object(kind, head, object),
        _ => {
            object.let_go();
            Err(head.refuse())
        }
    }
}

/// An object without an initial value is whole, and a token ends it.
#[tactic(auto, using(parse_begun::proofs::Deeper::scope_deeper))]
fn end_bare_object(lexeme: Lexeme, bare: Receiver) -> Result<State, Refusal>
    requires { head_depth bare.head (bare.shape.depth + 1) ≤ 256 }
    ensures { (f : Names) → Gives f result (object_ends (lexeme_of f lexeme) (head_of f bare.head) (Declared (f bare.name.name.0) (shape_part_of f bare.shape) Absent bare.name.at)) }
{
    end_object_by(lexeme, bare.head, object(bare.name, bare.shape))
}

/// An object with this shape goes on or ends.
fn go_on_object(lexeme: Lexeme, object: Receiver) -> Result<State, Refusal>
    requires { head_depth object.head (object.shape.depth + 1) ≤ 256 }
    ensures { (f : Names) → Gives f result (shaped (lexeme_of f lexeme) (OfObject (head_of f object.head) (f object.name.name.0) object.name.at) (shape_part_of f object.shape)) }
{
    match lexeme {
        Lexeme::Plain(TokenKind::Equal) => Ok(State::OfReceiver(AtReceiver::Initial, object)),
        _ => end_bare_object(lexeme, object),
    }
}

/// An object or a parameter with this shape goes on or ends.
pub fn go_on_shaped(
    lexeme: Lexeme,
    declarator: Declarator,
    shape: ShapePart,
) -> Result<State, Refusal>
    requires { declarator_depth declarator shape.depth ≤ 256 }
    ensures { (f : Names) → Gives f result (shaped (lexeme_of f lexeme) (declarator_of f declarator) (shape_part_of f shape)) }
{
    match declarator {
        Declarator::OfObject(head, name) => go_on_object(lexeme, Receiver { head, name, shape }),
        Declarator::OfParam(param) => end_shaped_param(lexeme, param, shape),
    }
}

/// An object or a parameter without a size so far goes on or ends.
pub fn go_on_declared(lexeme: Lexeme, declarator: Declarator) -> Result<State, Refusal>
    requires { declarator_depth declarator 0 ≤ 256 }
    ensures { (f : Names) → Gives f result (declares (lexeme_of f lexeme) (declarator_of f declarator)) }
{
    match lexeme {
        Lexeme::Plain(TokenKind::LeftBracket) => Ok(State::OfDeclarator(
            AtDeclarator::Sizing,
            declarator,
        )),
        _ => go_on_shaped(lexeme, declarator, scalar()),
    }
}

/// One object, without a size and an initial value.
fn one_object(alloc: Global, name: NameAt) -> Result<ObjectParts, Refusal>
    ensures ok { IfOk result (λ p. (row_of object_of Nothing p.list.items ≡ Then Nothing (Declared name.name.0 Scalar Absent name.at)) × (p.depth ≡ 1)) }
    ensures err { IfErr result (λ e. e ≡ Memory) }
{
    and_object(no_objects(alloc), object(name, scalar()))
}

/// The declaration of one object without a size and an initial value.
fn one_declaration(
    alloc: Global,
    specifiers: Vec<Specifier>,
    name: NameAt,
    at: u32,
) -> Result<DeclarationPart, Refusal>
    ensures ok { IfOk result (λ p. declaration_of p.declaration ≡ Objects specifiers.items (Then Nothing (Declared name.name.0 Scalar Absent name.at)) at) }
    ensures err { IfErr result (λ e. e ≡ Memory) }
{
    let objects = one_object(alloc, name)?;
    Ok(object_declaration(specifiers, objects, at))
}

/// The head of a declaration of which no object is whole.
fn first_head(alloc: Global, first: Proto) -> Head
    ensures { (f : Names) → head_of f result ≡ Heading first.specifiers.items Nothing first.at (scope_of f first.scope) }
{
    Head {
        specifiers: first.specifiers,
        objects: no_objects(alloc),
        at: first.at,
        scope: first.scope,
    }
}

/// The first object of a declaration, without a size so far, goes on or ends; what is made is too small to be
/// too deep.
fn go_on_first(alloc: Global, lexeme: Lexeme, first: Proto) -> Result<State, Refusal>
    ensures { (f : Names) → Gives f result (declares (lexeme_of f lexeme) (OfObject (Heading first.specifiers.items Nothing first.at (scope_of f first.scope)) (f first.name.name.0) first.name.at)) }
{
    let name = first.name;
    match lexeme {
        Lexeme::Plain(TokenKind::LeftBracket) => {
            let head = first_head(alloc, first);
            Ok(State::OfDeclarator(AtDeclarator::Sizing, Declarator::OfObject(head, name)))
        }
        Lexeme::Plain(TokenKind::Equal) => Ok(State::OfReceiver(
            AtReceiver::Initial,
            Receiver {
                head: first_head(alloc, first),
                name,
                shape: scalar(),
            },
        )),
        Lexeme::Plain(TokenKind::Comma) => match one_object(alloc, name) {
            Ok(objects) => Ok(State::OfHead(
                AtHead::Further,
                Head {
                    specifiers: first.specifiers,
                    objects,
                    at: first.at,
                    scope: first.scope,
                },
            )),
            Err(refusal) => {
                first.let_go();
                Err(refusal)
            }
        },
        Lexeme::Plain(TokenKind::Semicolon) => {
            match one_declaration(alloc, first.specifiers, name, first.at) {
                Ok(whole) => end_declaration(first.scope, whole),
                Err(refusal) => {
                    first.scope.let_go();
                    Err(refusal)
                }
            }
        }
        _ => Err(first.refuse()),
    }
}

/// Behind the first name of a declaration.
pub fn go_on_named(alloc: Global, lexeme: Lexeme, proto: Proto) -> Result<State, Refusal>
    ensures { (f : Names) → Gives f result (named (lexeme_of f lexeme) (proto_of f proto)) }
{
    match lexeme {
        Lexeme::Plain(TokenKind::LeftParen) => Ok(State::OfProto(AtProto::ParamsOpen, proto)),
        _ => go_on_first(alloc, lexeme, proto),
    }
}

/// Whether a token closes the bracket of a size.
fn closes_size(lexeme: &Lexeme) -> bool
    ensures yes { (f : Names) → IsTrue result → lexeme_of f lexeme.now ≡ Plain RightBracket }
    ensures no { (f : Names) → result ≡ false → IsOther RightBracket (lexeme_of f lexeme.now) }
{
    match lexeme {
        Lexeme::Plain(TokenKind::RightBracket) => true,
        _ => false,
    }
}

/// Behind the bracket of a size.
pub fn begin_size(alloc: Global, word: Word, declarator: Declarator) -> Result<State, Refusal>
    ensures { (f : Names) → Gives f result (sizing (lexeme_of f word.lexeme) word.at (declarator_of f declarator)) }
{
    if closes_size(&word.lexeme) {
        let shape = ShapePart {
            shape: Shape::Unsized,
            depth: 0,
        };
        return Ok(State::OfDeclarator(AtDeclarator::Shaped(shape), declarator));
    }
    let declarator = declarator.boxed(alloc)?;
    begin_operand(alloc, word, Stack::Base(Purpose::Sizes(declarator)))
}

/// An initial value begins.
pub fn begin_initial(alloc: Global, word: Word, object: Receiver) -> Result<State, Refusal>
    ensures { (f : Names) → Gives f result (initial (lexeme_of f word.lexeme) word.at (head_of f object.head) (f object.name.name.0) (shape_part_of f object.shape) object.name.at) }
{
    let Word { lexeme, at } = word;
    match lexeme {
        Lexeme::Plain(TokenKind::LeftBrace) => {
            let object = object.boxed(alloc)?;
            let list = Purpose::Lists(object, no_parts(alloc));
            Ok(State::OfOperand(AtOperand::Wants, Stack::Base(list)))
        }
        _ => {
            let object = object.boxed(alloc)?;
            let under = Stack::Base(Purpose::Initialises(object));
            begin_operand(alloc, Word { lexeme, at }, under)
        }
    }
}

/// Behind a comma of a list of initial values.
#[tactic(auto, using(parse_begun::proofs::Deeper::scope_deeper))]
pub fn go_on_listed(
    alloc: Global,
    word: Word,
    object: Receiver,
    front: Parts,
) -> Result<State, Refusal>
    requires { head_depth object.head (max object.shape.depth front.depth + 1) ≤ 256 }
    ensures { (f : Names) → Gives f result (listed (lexeme_of f word.lexeme) word.at (head_of f object.head) (f object.name.name.0) (shape_part_of f object.shape) (parts_of f front) object.name.at) }
{
    let Word { lexeme, at } = word;
    match lexeme {
        Lexeme::Plain(TokenKind::RightBrace) => {
            let whole = listed_object(object.name, object.shape, front, true);
            Ok(State::OfHead(AtHead::Ended(whole), object.head))
        }
        _ => match object.boxed(alloc) {
            Ok(object) => {
                let under = Stack::Base(Purpose::Lists(object, front));
                begin_operand(alloc, Word { lexeme, at }, under)
            }
            Err(refusal) => {
                front.let_go();
                Err(refusal)
            }
        },
    }
}
