ghost use Rattle.parse_begun.specs.View.{Gives, Names, head_of, scope_of};
ghost use Rattle.parse_grammar.specs.Machine.{first_name, further, specified, specifier_of};
ghost use Rattle.parse_words.specs.Lexemes.{lexeme_of};

use c_tree::expression::Specifier;
use parse_begun::begun::{AtDeclarator, AtProto, Declarator, Head, NameAt, Proto, Scope, State};
use parse_begun::list::and_specifier;
use parse_begun::refusal::Refusal;
use parse_operand::role::specifier_said;
use parse_words::{Lexeme, Word};

/// The first name of a declaration.
fn begin_named(
    word: Word,
    specifiers: Vec<Specifier>,
    at: u32,
    scope: Scope,
) -> Result<State, Refusal>
    ensures { (f : Names) → Gives f result (first_name (lexeme_of f word.lexeme) word.at specifiers.items at (scope_of f scope)) }
{
    let Word { lexeme, at: here } = word;
    match lexeme {
        Lexeme::Name(name) => Ok(State::OfProto(
            AtProto::Named,
            Proto {
                specifiers,
                name: NameAt { name, at: here },
                at,
                scope,
            },
        )),
        _ => Err(scope.refuse()),
    }
}

/// Within the specifiers of a declaration.
pub fn go_on_specified(
    word: Word,
    specifiers: Vec<Specifier>,
    at: u32,
    scope: Scope,
) -> Result<State, Refusal>
    ensures { (f : Names) → Gives f result (specified (specifier_of (lexeme_of f word.lexeme)) (lexeme_of f word.lexeme) word.at specifiers.items at (scope_of f scope)) }
{
    match specifier_said(&word.lexeme) {
        Some(next) => match and_specifier(specifiers, next) {
            Ok(specifiers) => Ok(State::Specified {
                specifiers,
                at,
                scope,
            }),
            Err(refusal) => {
                scope.let_go();
                Err(refusal)
            }
        },
        None => begin_named(word, specifiers, at, scope),
    }
}

/// A further object of a declaration.
pub fn begin_further(word: Word, head: Head) -> Result<State, Refusal>
    ensures { (f : Names) → Gives f result (further (lexeme_of f word.lexeme) word.at (head_of f head)) }
{
    let Word { lexeme, at: here } = word;
    match lexeme {
        Lexeme::Name(name) => {
            let name = NameAt { name, at: here };
            Ok(State::OfDeclarator(AtDeclarator::Declares, Declarator::OfObject(head, name)))
        }
        _ => Err(head.refuse()),
    }
}
