ghost use Rattle.std.specs.Prelude.{◌≡◌, ◌+◌, ◌≤◌, List, ℕ, length, IfErr, IfOk};
ghost use Rattle.c_tree.specs.Size.{size_unit};
ghost use Rattle.c_tree.specs.Spelling.{spoken};
ghost use Rattle.c_tree.specs.Tree.{TranslationUnit};
ghost use Rattle.c_tree.specs.Units.{named_tree_of};
ghost use Rattle.c_parser.specs.Refused.{IsRefused, Stops};
ghost use Rattle.c_tree.specs.Formed.{IsTreeOf};
ghost use Rattle.c_parser.specs.declared.fault.ParseFault.TheVariants.{Memory};

use super::fault::ParseFault;
use super::read::read;
use super::unit::finish;
use c_tree::{Tokens, Unit};
use parse_words::{Words, read_words};
use std::alloc::Global;

/// The one well-formed tree that the tokens are the spelling of, at most 256 nodes deep.
///
/// Errors: Syntax at the least token up to which no well-formed unit's spelling begins so, or at the
/// number of all tokens where they only begin one; Deep at the least token up to which what has begun is
/// more than 256 nodes deep; of the two that at the earlier token; Memory where that ran out.
pub fn parse(alloc: Global, tokens: &Tokens) -> Result<Unit, ParseFault>
    ensures tree { IfOk result (λ unit. IsTreeOf (named_tree_of unit) (spoken tokens.now)) }
    ensures shallow { IfOk result (λ unit. (size_unit (named_tree_of unit)).depth ≤ 256) }
    ensures few { IfOk result (λ unit. (size_unit (named_tree_of unit)).nodes ≤ length tokens.now.list + 1) }
    ensures err { IfErr result (λ fault. IsRefused fault (spoken tokens.now)) }
    ensures stops { IfErr result (λ fault. Stops fault (spoken tokens.now)) }

    // There is no other such tree, and where there is one of such a depth, only memory can be wanting.
    ensures one { (tree : TranslationUnit (List ℕ)) → IsTreeOf tree (spoken tokens.now) → IfOk result (λ unit. named_tree_of unit ≡ tree) }
    ensures accepts { (tree : TranslationUnit (List ℕ)) → IsTreeOf tree (spoken tokens.now) → (size_unit tree).depth ≤ 256 → IfErr result (λ fault. fault ≡ Memory) }
{
    let Words { list, names } = read_words(alloc, tokens)?;
    let state = read(alloc, list)?;
    finish(tokens, state, names)
}
