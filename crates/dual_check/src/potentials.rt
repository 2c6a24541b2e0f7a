// The potentials of a certificate.
ghost use Rattle.std.specs.Prelude.{◌≡◌};
ghost use Rattle.code_flow_system.specs.Certificates.{potential, AddressesAscend};

use code_flow_lookup::potential;
use code_flow_system::Cert;

/// The potential of an address, 0 where none is given.
pub fn potential_of(cert: &Cert, at: u32) -> i128
    requires { AddressesAscend cert.now.potentials }
    ensures { result ≡ potential cert.now at }
{
    potential(cert.potentials.as_slice(), at)
}
