// What is known of a unit as a whole.
ghost use Rattle.std.specs.Prelude.{◌≡◌, nat_eq, IfOk, OnOk};
ghost use Rattle.std.specs.Cmp.Lexicographic.{pointwise};
ghost use Rattle.c_tree.specs.Units.{tree_of};
ghost use Rattle.types_rules.specs.Sights.{number_of, outline_of};
ghost use Rattle.c_types.specs.Outline.{outline_from, with_external};

use c_tree::Unit;
use c_tree::external::External;
use std::alloc::{AllocError, Global};
use types_scope::{Known, narrow};
use wcc_base::Text;

fn is_named(text: &Text, name: &[u8]) -> bool
    ensures { result ≡ pointwise nat_eq text.now name.now }
{
    text.as_bytes() == name
}

/// The number of a name in a list of names, or the list's length.
fn number_of(name: &[u8], names: &[Text]) -> usize
    ensures { result ≡ number_of name.now names.now }
{
    for i in 0..names.len() {
        if is_named(&names[i], name) {
            return i;
        }
    }
    names.len()
}

fn note(known: &mut Known, external: &External) -> Result<(), AllocError>
    ensures { OnOk result (known.new ≡ with_external external.now known.old) }
{
    match external {
        External::Restriction(_) => Ok(()),
        External::Declaration(_) => Ok(()),
        External::Function(function) => known.define(function.name.0),
    }
}

fn note_all(known: &mut Known, externals: &[External]) -> Result<(), AllocError>
    ensures { OnOk result (known.new ≡ outline_from externals.now known.old) }
{
    for external in externals {
        note(known, external)?;
    }
    Ok(())
}

/// The functions that a unit defines, and the numbers of three names.
pub fn outline(unit: &Unit, alloc: Global) -> Result<Known, AllocError>
    ensures { IfOk result (λ known. known ≡ outline_of unit.now.names.items (tree_of unit.now)) }
{
    let names = unit.names.as_slice();
    let main = narrow(number_of(b"main", names))?;
    let getchar = narrow(number_of(b"getchar", names))?;
    let putchar = narrow(number_of(b"putchar", names))?;
    let mut known = Known::new(main, getchar, putchar, alloc);
    note_all(&mut known, &unit.items)?;
    Ok(known)
}
