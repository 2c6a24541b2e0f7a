ghost use Rattle.std.specs.Prelude.{◌≡◌, ◌≤◌, ◌<◌, ◌^◌};
ghost use Rattle.c_tree.specs.Formed.{IsFormedUnit};
ghost use Rattle.c_tree.specs.Named.{named_unit};
ghost use Rattle.c_tree.specs.Names.{AreDistinct, AreListed, AreNames, name_of, names_of_unit};
ghost use Rattle.c_tree.specs.Size.{size_unit};
ghost use Rattle.c_tree.specs.View.{unit_of};

use super::external::External;
use wcc_base::Text;

/// A translation unit (C11 6.9), at the place of its first token. It is well formed and at most 256
/// nodes deep. Its names are those that stand in it and in its markers and restrictions, each once, in
/// the order in which they first stand.
#[derive(Drop)]
pub struct Unit {
    pub items: Vec<External>,
    pub names: Vec<Text>,
    pub at: u32,
    ghost is_formed: { ∥ IsFormedUnit (unit_of items.items at) ∥₁ },
    ghost is_small: { (size_unit (unit_of items.items at)).nodes < 2 ^ 32 },
    ghost is_shallow: { (size_unit (unit_of items.items at)).depth ≤ 256 },
    ghost are_listed: { ∥ AreListed names.items (unit_of items.items at) ∥₁ },
    ghost are_names: { ∥ AreNames names.items ∥₁ },
    ghost are_distinct: { AreDistinct names.items },
    ghost are_in_order: { names.items ≡ names_of_unit (named_unit (name_of names.items) (unit_of items.items at)) },
}
