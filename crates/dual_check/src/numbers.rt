// The numbers of claims.
ghost use Rattle.std.specs.Prelude.{◌≡◌, ◌+◌, ◌<◌, ◌^◌, length};
ghost use Rattle.dual_check.specs.Rows.{nevers_from, loops_from, facts_from};

use code_flow_system::Claims;

/// The number of the first never claim.
pub fn nevers_from(claims: &Claims) -> u32
    ensures value { result ≡ nevers_from claims.now }
    ensures few { result + length claims.now.nevers < 2 ^ 32 }
{
    claims.exits().len() as u32
}

/// The number of the first loop claim.
pub fn loops_from(claims: &Claims) -> u32
    ensures value { result ≡ loops_from claims.now }
    ensures few { result + length claims.now.loops < 2 ^ 32 }
{
    nevers_from(claims) + claims.nevers().len() as u32 + claims.regions().len() as u32
}

/// The number of the first fact claim.
pub fn facts_from(claims: &Claims) -> u32
    ensures value { result ≡ facts_from claims.now }
    ensures few { result + length claims.now.facts < 2 ^ 32 }
{
    loops_from(claims) + claims.loops().len() as u32
}
