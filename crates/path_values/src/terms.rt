// Worths of places as potentials of addresses.
ghost use Rattle.std.specs.Prelude.{◌≡◌, ◌==◌, ◌<◌, ◌++◌, ◌∷◌, [], length, IfOk, OnOk, if◌then◌else◌};
ghost use Rattle.code_flow_system.specs.Systems.{AreAscending};
ghost use Rattle.path_places.specs.Duals.{potentials_of};

use code_flow_system::Move;
use std::alloc::{AllocError, Global};

/// Adds the potential of an address, where its first move stands.
fn add_potential(
    potentials: &mut Vec<(u32, i128)>,
    step: &Move,
    worth: i128,
) -> Result<(), AllocError>
    ensures { OnOk result (potentials.new.items ≡ potentials.old.items ++ (if step.now.number == 0 then (step.now.at, worth) ∷ [] else [])) }
{
    if step.number == 0 {
        potentials.push((step.at, worth))?;
    }
    Ok(())
}

/// The worth of each address as its potential.
pub fn potentials(
    alloc: Global,
    moves: &[Move],
    worths: &[i128],
) -> Result<Vec<(u32, i128)>, AllocError>
    requires ascending { AreAscending moves.now }
    requires long { length moves.now < length worths.now }
    ensures { IfOk result (λ v. v.items ≡ potentials_of moves.now worths.now moves.now) }
{
    let mut potentials = Vec::new(alloc);
    for i in 0..moves.len() {
        add_potential(&mut potentials, &moves[i], worths[i])?;
    }
    Ok(potentials)
}
