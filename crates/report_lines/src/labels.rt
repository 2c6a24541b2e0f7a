// Names and letters.
ghost use Rattle.std.specs.Prelude.{◌≡◌, ◌++◌, ◌||◌, true, false, IfOk, MatchOption};
ghost use Rattle.report_words.specs.Words.{is_name};
ghost use Rattle.report_words.specs.Shapes.{is_dash, are_letters};
ghost use Rattle.report_text.specs.Lines.{letter, share_name};
ghost use Rattle.report_lines.specs.LineShapes.{starts};

use std::alloc::Global;
use wcc_base::{Memory, Text};

/// The name of a word, or none of `-`.
#[tactic(auto, using(crate::proofs::LabelLemmas::named_else))]
pub fn label(alloc: Global, word: &[u8]) -> Result<Option<Text>, Memory>
    requires { (is_dash word.now || is_name word.now) ≡ true }
    ensures same { IfOk result (λ name. share_name name ≡ word.now) }
    ensures named { IfOk result (λ name. MatchOption name (Unit {0}) (λ n. is_name n ≡ true)) }
{
    if word == b"-".as_slice() {
        return Ok(None);
    }
    let bytes = Vec::from_slice(alloc, word)?;
    Ok(Some(Text::new(bytes)))
}

// Whether a word begins with the letter, and what is left of it then.
fn strip(word: &[u8], byte: u8) -> (bool, &[u8])
    ensures split { word.now ≡ letter result.0 byte ++ result.1.now }
    ensures absent { result.0 ≡ false → starts byte word.now ≡ false }
{
    match word {
        [] => (false, word),
        [first, rest @ ..] => {
            if *first == byte {
                (true, rest)
            } else {
                (false, word)
            }
        }
    }
}

/// Whether a word of letters has `f`, `s` and `r`.
pub fn letters(word: &[u8]) -> (bool, bool, bool)
    requires { are_letters word.now ≡ true }
    ensures { letter result.0 102 ++ (letter result.1 115 ++ letter result.2 114) ≡ word.now }
{
    let (flash, behind_flash) = strip(word, b'f');
    let (spm, behind_spm) = strip(behind_flash, b's');
    let (ram, _) = strip(behind_spm, b'r');
    (flash, spm, ram)
}
