ghost use Rattle.std.specs.Prelude.{◌≡◌, ◌≤◌};
ghost use Rattle.c_tree.specs.Size.{size_unit};
ghost use Rattle.c_tree.specs.Units.{tree_of};

use super::measure::measure_externals;
use super::unit::Unit;

/// The number of nodes of a unit.
pub fn nodes(unit: &Unit) -> u32
    ensures { result ≡ (size_unit (tree_of unit.now)).nodes }
{
    measure_externals(&unit.items).over().nodes
}

/// The depth of a unit: 1 for a leaf, else one more than the greatest depth of its parts.
pub fn depth(unit: &Unit) -> u32
    ensures depth { result ≡ (size_unit (tree_of unit.now)).depth }
    ensures most { result ≤ 256 }
{
    measure_externals(&unit.items).over().depth
}
