ghost use Rattle.std.specs.Prelude.{◌≤◌, max};
ghost use Rattle.parse_begun.specs.Depths.{declarator_depth, proto_depth};
ghost use Rattle.parse_begun.specs.View.{Gives, Names, id_named, param_part_of, params_of, proto_of, scope_of, shape_part_of};
ghost use Rattle.parse_begun.specs.declared.begun.Declarator.TheVariants.{OfParam};
ghost use Rattle.parse_grammar.specs.Begun as begun;
ghost use Rattle.parse_grammar.specs.Machine.{Goes, body, declared, param_begins, param_ends, param_named, param_specified, params_done, params_open, shaped, specifier_of};
ghost use Rattle.parse_words.specs.Lexemes.{lexeme_of};
ghost use Rattle.c_tree.specs.Named.{map_option};
ghost use Rattle.c_tree.specs.Tree.{Prototype};

use super::object::go_on_declared;
use c_tree::expression::Specifier;
use c_tree::token::TokenKind;
use parse_begun::begun::{
    AtDeclarator, AtProto, Braces, Declarator, Header, NamedParam, Proto, Scope, State,
};
use parse_begun::list::{and_param, and_specifier, no_items, no_params, one_specifier};
use parse_begun::part::{ParamPart, ParamParts, ShapePart};
use parse_begun::refusal::Refusal;
use parse_nodes::declaration::{end_declaration, parameter, prototype};
use parse_operand::role::specifier_said;
use parse_words::{Lexeme, Word};
use std::alloc::Global;

/// A parameter is whole, and a token ends it.
fn end_param(
    lexeme: Lexeme,
    proto: Proto,
    front: ParamParts,
    param: ParamPart,
) -> Result<State, Refusal>
    ensures { (f : Names) → Gives f result (param_ends (lexeme_of f lexeme) (proto_of f proto) (params_of f front) (param_part_of f param)) }
{
    match lexeme {
        Lexeme::Plain(TokenKind::Comma) => match and_param(front, param) {
            Ok(front) => Ok(State::OfProto(AtProto::ParamNext(front), proto)),
            Err(refusal) => {
                proto.let_go();
                Err(refusal)
            }
        },
        Lexeme::Plain(TokenKind::RightParen) => match and_param(front, param) {
            Ok(params) => Ok(State::OfProto(AtProto::ParamsDone(params), proto)),
            Err(refusal) => {
                proto.let_go();
                Err(refusal)
            }
        },
        _ => {
            front.let_go();
            param.let_go();
            Err(proto.refuse())
        }
    }
}

/// A parameter with this shape is whole, and a token ends it.
#[tactic(auto, using(parse_begun::proofs::Deeper::scope_deeper))]
pub fn end_shaped_param(
    lexeme: Lexeme,
    param: NamedParam,
    shape: ShapePart,
) -> Result<State, Refusal>
    requires { declarator_depth (OfParam param) shape.depth ≤ 256 }
    ensures { (f : Names) → Gives f result (shaped (lexeme_of f lexeme) (begun.OfParam (proto_of f param.proto) (params_of f param.front) param.specifiers.items (map_option (id_named f) param.name) param.at) (shape_part_of f shape)) }
{
    let whole = parameter(param.specifiers, param.name, shape, param.at);
    end_param(lexeme, param.proto, param.front, whole)
}

/// A parameter begins.
pub fn begin_param(
    alloc: Global,
    word: Word,
    proto: Proto,
    front: ParamParts,
) -> Result<State, Refusal>
    ensures { (f : Names) → Gives f result (param_begins (specifier_of (lexeme_of f word.lexeme)) word.at (proto_of f proto) (params_of f front)) }
{
    match specifier_said(&word.lexeme) {
        Some(first) => match one_specifier(alloc, first) {
            Ok(specifiers) => Ok(State::OfProto(
                AtProto::ParamSpecified {
                    front,
                    specifiers,
                    at: word.at,
                },
                proto,
            )),
            Err(refusal) => {
                proto.let_go();
                front.let_go();
                Err(refusal)
            }
        },
        None => {
            front.let_go();
            Err(proto.refuse())
        }
    }
}

/// Behind the bracket of the parameters.
pub fn begin_params(alloc: Global, word: Word, proto: Proto) -> Result<State, Refusal>
    ensures { (f : Names) → Gives f result (params_open (lexeme_of f word.lexeme) word.at (proto_of f proto)) }
{
    let Word { lexeme, at } = word;
    match lexeme {
        Lexeme::Plain(TokenKind::RightParen) => Ok(State::OfProto(
            AtProto::ParamsDone(no_params(alloc)),
            proto,
        )),
        _ => begin_param(alloc, Word { lexeme, at }, proto, no_params(alloc)),
    }
}

/// Behind the specifiers of a parameter, which need not have a name.
fn name_param(
    lexeme: Lexeme,
    proto: Proto,
    front: ParamParts,
    specifiers: Vec<Specifier>,
    at: u32,
) -> Result<State, Refusal>
    requires { proto_depth proto (max front.depth 1) ≤ 256 }
    ensures { (f : Names) → Gives f result (param_named (lexeme_of f lexeme) (proto_of f proto) (params_of f front) specifiers.items at) }
{
    match lexeme {
        Lexeme::Name(name) => Ok(State::OfDeclarator(
            AtDeclarator::Declares,
            Declarator::OfParam(NamedParam {
                proto,
                front,
                specifiers,
                name: Some(name),
                at,
            }),
        )),
        _ => {
            let param = NamedParam {
                proto,
                front,
                specifiers,
                name: None,
                at,
            };
            go_on_declared(lexeme, Declarator::OfParam(param))
        }
    }
}

/// Within the specifiers of a parameter.
pub fn go_on_param(
    lexeme: Lexeme,
    proto: Proto,
    front: ParamParts,
    specifiers: Vec<Specifier>,
    at: u32,
) -> Result<State, Refusal>
    requires { proto_depth proto (max front.depth 1) ≤ 256 }
    ensures { (f : Names) → Gives f result (param_specified (specifier_of (lexeme_of f lexeme)) (lexeme_of f lexeme) (proto_of f proto) (params_of f front) specifiers.items at) }
{
    match specifier_said(&lexeme) {
        Some(next) => match and_specifier(specifiers, next) {
            Ok(specifiers) => Ok(State::OfProto(
                AtProto::ParamSpecified {
                    front,
                    specifiers,
                    at,
                },
                proto,
            )),
            Err(refusal) => {
                proto.let_go();
                front.let_go();
                Err(refusal)
            }
        },
        None => name_param(lexeme, proto, front, specifiers, at),
    }
}

/// The body of a function begins, at file level alone.
fn begin_body(alloc: Global, proto: Proto, params: ParamParts, here: u32) -> Result<State, Refusal>
    ensures { (f : Names) → Gives f result (body (proto_of f proto) (params_of f params) here) }
{
    let Proto {
        specifiers,
        name,
        at,
        scope,
    } = proto;
    match scope {
        Scope::AtFile(front) => {
            let header = Header {
                specifiers,
                name,
                params,
                body_at: here,
                at,
                front,
            };
            let braces = Braces::OfFunction(header).boxed(alloc)?;
            Ok(State::Among(no_items(alloc), braces))
        }
        other => {
            params.let_go();
            Err(other.refuse())
        }
    }
}

/// A function is declared, and not defined.
#[tactic(auto, using(parse_begun::proofs::Deeper::scope_deeper))]
fn end_prototype(proto: Proto, params: ParamParts) -> Result<State, Refusal>
    requires { proto_depth proto params.depth ≤ 256 }
    ensures { (f : Names) → Gives f result (Goes (declared (scope_of f proto.scope) (Prototype proto.specifiers.items (f proto.name.name.0) (params_of f params) proto.at))) }
{
    let whole = prototype(proto.specifiers, proto.name.name, params, proto.at);
    end_declaration(proto.scope, whole)
}

/// Behind the parameters of a function.
pub fn end_params(
    alloc: Global,
    word: Word,
    proto: Proto,
    params: ParamParts,
) -> Result<State, Refusal>
    requires { proto_depth proto params.depth ≤ 256 }
    ensures { (f : Names) → Gives f result (params_done (lexeme_of f word.lexeme) word.at (proto_of f proto) (params_of f params)) }
{
    match word.lexeme {
        Lexeme::Plain(TokenKind::Semicolon) => end_prototype(proto, params),
        Lexeme::Plain(TokenKind::LeftBrace) => begin_body(alloc, proto, params, word.at),
        _ => {
            params.let_go();
            Err(proto.refuse())
        }
    }
}
