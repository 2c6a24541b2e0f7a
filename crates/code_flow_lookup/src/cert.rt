// What a certificate gives an address or a move.
ghost use Rattle.std.specs.Prelude.{◌≡◌, pos, All};
ghost use Rattle.frac128.specs.Terms.{coefficient};
ghost use Rattle.code_flow_system.specs.Certificates.{AddressesAscend, PartsAscend, IsPart, is_given, listed};

use crate::runs::{parts_at, potentials_at};
use code_flow_system::Part;

/// Whether a potential is given for an address.
pub fn is_given(potentials: &[(u32, i128)], at: u32) -> bool
    requires { AddressesAscend potentials.now }
    ensures { result ≡ is_given potentials.now at }
{
    !potentials_at(potentials, at).is_empty()
}

/// The potential of an address, 0 where none is given.
pub fn potential(potentials: &[(u32, i128)], at: u32) -> i128
    requires { AddressesAscend potentials.now }
    ensures { result ≡ coefficient potentials.now at }
{
    let given = potentials_at(potentials, at);
    if given.is_empty() {
        return 0;
    }
    given[0].1
}

/// How often a listed flow makes a move, over its unit.
pub fn amount(parts: &[Part], at: u32, number: u8) -> i128
    requires ascending { PartsAscend parts.now }
    requires parts { All IsPart parts.now }
    ensures { result ≡ pos (listed parts.now at number) }
{
    let here = parts_at(parts, at);
    for i in 0..here.len() {
        if here[i].number == number {
            return here[i].part;
        }
    }
    0
}
