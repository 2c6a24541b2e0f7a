ghost use Rattle.std.specs.Prelude.{◌≡◌, ◌<◌, ◌≤◌, ◌^◌, length, map, IfErr, IfOk};
ghost use Rattle.parse_begun.specs.Depths.{state_depth};
ghost use Rattle.parse_begun.specs.View.{Names, state_of};
ghost use Rattle.parse_grammar.specs.Law.{run};
ghost use Rattle.parse_grammar.specs.Machine.{Goes, step};
ghost use Rattle.c_parser.specs.Refused.{Halts, Stops};
ghost use Rattle.parse_words.specs.Lexemes.{word_said};

use super::fault::ParseFault;
use super::step::step;
use parse_begun::begun::State;
use parse_begun::list::no_externals;
use parse_begun::refusal::Refusal;
use parse_depth::is_shallow;
use parse_words::Word;
use std::alloc::Global;

/// The state behind one word more.
fn advance(alloc: Global, state: State, word: Word, token: u32) -> Result<State, ParseFault>
    requires { state_depth state ≤ 256 }
    ensures ok { (f : Names) → IfOk result (λ next. step (state_of f state) (word_said f word) ≡ Goes (state_of f next)) }
    ensures shallow { IfOk result (λ next. state_depth next ≤ 256) }
    ensures err { (f : Names) → IfErr result (λ fault. Halts fault token (step (state_of f state) (word_said f word))) }
{
    match step(alloc, state, word) {
        Ok(next) => {
            if is_shallow(&next) {
                Ok(next)
            } else {
                next.let_go();
                Err(ParseFault::Deep { token })
            }
        }
        Err(Refusal::Memory) => Err(ParseFault::Memory),
        Err(Refusal::Syntax) => Err(ParseFault::Syntax { token }),
    }
}

/// The state behind these words.
pub fn read(alloc: Global, words: Vec<Word>) -> Result<State, ParseFault>
    requires { length words.items < 2 ^ 32 }
    ensures ok { (f : Names) → IfOk result (λ state. run (map (word_said f) words.items) ≡ Goes (state_of f state)) }
    ensures shallow { IfOk result (λ state. state_depth state ≤ 256) }
    ensures err { (f : Names) → IfErr result (λ fault. Stops fault (map (word_said f) words.items)) }
{
    let mut state = State::File(no_externals(alloc));
    let mut token = 0;
    for word in words {
        state = advance(alloc, state, word, token)?;
        token += 1;
    }
    Ok(state)
}
