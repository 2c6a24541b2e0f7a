ghost use Rattle.std.specs.Prelude.{◌≡◌, ◌+◌, ◌<◌, ◌≤◌, ◌^◌, ℕ, [], length, IfErr, IfNone, IfOk, IfSome};
ghost use Rattle.parse_begun.specs.Depths.{state_depth};
ghost use Rattle.parse_begun.specs.View.{Names, externals_of, state_of};
ghost use Rattle.parse_grammar.specs.Begun.{Bytes, File};
ghost use Rattle.c_parser.specs.Led.{Led};
ghost use Rattle.c_parser.specs.Refused.{Stops};
ghost use Rattle.c_tree.specs.Formed.{IsTreeOf, EachOf, IsFirstPlace, IsFormedExternal};
ghost use Rattle.c_parser.specs.declared.fault.ParseFault.TheVariants.{Syntax};
ghost use Rattle.c_tree.specs.Named.{named_unit};
ghost use Rattle.c_tree.specs.Names.{AreDistinct, AreListed, AreNames, name_of, names_of_tokens, names_of_unit};
ghost use Rattle.c_tree.specs.Size.{size_external, size_row, size_unit};
ghost use Rattle.c_tree.specs.Spelling.{spoken};
ghost use Rattle.c_tree.specs.Tree as trees;
ghost use Rattle.c_tree.specs.Tree.{Nothing, Row};
ghost use Rattle.c_tree.specs.Units.{named_tree_of};
ghost use Rattle.c_tree.specs.View.{external_of, row_of, unit_of};

use super::fault::ParseFault;
use c_tree::external::External;
use c_tree::{Tokens, Unit};
use parse_begun::begun::State;
use parse_begun::list::let_externals_go;
use parse_begun::part::ExternalParts;
use wcc_base::Text;

/// The place of the first of these.
fn first_place(items: &[External]) -> Option<u32>
    ensures some { IfSome result (λ at. IsFirstPlace at (row_of external_of Nothing items.now)) }
    ensures none { IfNone result (items.now ≡ []) }
{
    match items.first() {
        Some(first) => Some(first.place()),
        None => None,
    }
}

/// The unit of these items, where there are any.
fn unit(items: Vec<External>, names: Vec<Text>, count: u32) -> Result<Unit, ParseFault>
    requires formed { EachOf IsFormedExternal (row_of external_of Nothing items.items) }
    requires small { (size_row size_external (row_of external_of Nothing items.items)).nodes + 1 < 2 ^ 32 }
    requires shallow { (size_row size_external (row_of external_of Nothing items.items)).depth + 1 ≤ 256 }
    requires listed { (at : ℕ) → AreListed names.items (unit_of items.items at) }
    requires named { AreNames names.items }
    requires distinct { AreDistinct names.items }
    requires in_order { (at : ℕ) → names.items ≡ names_of_unit (named_unit (name_of names.items) (unit_of items.items at)) }
    ensures items { IfOk result (λ unit. unit.items ≡ items) }
    ensures names { IfOk result (λ unit. unit.names ≡ names) }
    ensures first { IfOk result (λ unit. IsFirstPlace unit.at (row_of external_of Nothing items.items)) }
    ensures none { IfErr result (λ e. (e ≡ Syntax count) × (items.items ≡ [])) }
{
    match first_place(&items) {
        Some(at) => Ok(Unit { items, names, at }),
        None => {
            let_externals_go(items);
            Err(ParseFault::Syntax { token: count })
        }
    }
}

/// What stands at file level, where the state is there.
fn file_level(state: State) -> Option<ExternalParts>
    ensures some { (f : Names) → IfSome result (λ front. state_of f state ≡ File (externals_of f front)) }
    ensures none { (f : Names) (items : Row (trees.External Bytes)) → IfNone result (state_of f state ≡ File items → ⊥) }
{
    match state {
        State::File(front) => Some(front),
        other => {
            other.let_go();
            None
        }
    }
}

/// The unit that all tokens have led to.
pub fn finish(tokens: &Tokens, state: State, names: Vec<Text>) -> Result<Unit, ParseFault>
    requires led { Led state names.items (spoken tokens.now) }
    requires shallow { state_depth state ≤ 256 }
    requires named { AreNames names.items }
    requires distinct { AreDistinct names.items }
    requires in_order { names.items ≡ names_of_tokens (spoken tokens.now) }
    ensures tree { IfOk result (λ unit. IsTreeOf (named_tree_of unit) (spoken tokens.now)) }
    ensures shallow { IfOk result (λ unit. (size_unit (named_tree_of unit)).depth ≤ 256) }
    ensures few { IfOk result (λ unit. (size_unit (named_tree_of unit)).nodes ≤ length tokens.now.list + 1) }
    ensures err { IfErr result (λ fault. Stops fault (spoken tokens.now)) }
{
    let count = tokens.list().len() as u32;
    match file_level(state) {
        Some(front) => unit(front.list, names, count),
        None => Err(ParseFault::Syntax { token: count }),
    }
}
