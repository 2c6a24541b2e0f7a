// Which addresses have moves and no potential, or the reverse.
ghost use Rattle.std.specs.Prelude.{◌≡◌, not};
ghost use Rattle.code_flow_system.specs.Systems.{AreAscending, has_moves};
ghost use Rattle.code_flow_system.specs.Certificates.{AddressesAscend, is_given, IsInForm};
ghost use Rattle.dual_check.specs.Rows.{FailsMissing};
ghost use Rattle.dual_check.specs.Leasts.{IsLeastOf, IsAtBad, lesser};

use code_flow_lookup::{has_moves, is_given};
use code_flow_system::{Cert, Move, System};

/// The first address with moves that has no potential.
fn first_ungiven(moves: &[Move], potentials: &[(u32, i128)]) -> Option<u32>
    requires moves { AreAscending moves.now }
    requires potentials { AddressesAscend potentials.now }
    ensures { IsLeastOf (IsAtBad (λ m. m.at) (λ m. not (is_given potentials.now m.at)) moves.now) result }
{
    for i in 0..moves.len() {
        if !is_given(potentials, moves[i].at) {
            return Some(moves[i].at);
        }
    }
    None
}

/// The first address with a potential that has no moves.
fn first_unreached(moves: &[Move], potentials: &[(u32, i128)]) -> Option<u32>
    requires moves { AreAscending moves.now }
    requires potentials { AddressesAscend potentials.now }
    ensures { IsLeastOf (IsAtBad (λ t. t.0) (λ t. not (has_moves moves.now t.0)) potentials.now) result }
{
    for i in 0..potentials.len() {
        if !has_moves(moves, potentials[i].0) {
            return Some(potentials[i].0);
        }
    }
    None
}

/// The lesser of two addresses, where there are any.
pub fn lesser(a: Option<u32>, b: Option<u32>) -> Option<u32>
    ensures { result ≡ lesser a b }
{
    match (a, b) {
        (Some(a), Some(b)) => Some(a.min(b)),
        (Some(a), None) => Some(a),
        (None, b) => b,
    }
}

/// The least address that has moves and no potential, or the reverse.
pub fn first_missing(system: &System, cert: &Cert) -> Option<u32>
    requires { IsInForm system.now.claims cert.now }
    ensures { IsLeastOf (FailsMissing system.now cert.now) result }
{
    let moves = system.moves();
    let potentials = cert.potentials.as_slice();
    lesser(
        first_ungiven(moves, potentials),
        first_unreached(moves, potentials),
    )
}
