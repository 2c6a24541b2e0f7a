// The multipliers of a certificate, by the numbers of limits.
ghost use Rattle.std.specs.Prelude.{◌≡◌, ◌%◌, ◌==◌};
ghost use Rattle.code_flow_system.specs.Certificates.{limits};
ghost use Rattle.code_flow_system.specs.Lookups.{by_at, HasMultipliers};
ghost use Rattle.dual_check.specs.Multipliers.{never_by, loop_by, fact_by};

use code_flow_system::{Cert, System};

/// A fact's multiplier, 0 where there is none of that number.
fn fact_multiplier(facts: &[i128], n: usize) -> i128
    ensures { result ≡ fact_by facts.now n }
{
    if n < facts.len() {
        return facts[n];
    }
    0
}

/// The multiplier of a loop's least or most, and behind those of the loops a fact's.
fn later_multiplier(loops: &[(i128, i128)], facts: &[i128], n: usize) -> i128
    ensures { result ≡ loop_by loops.now facts.now n }
{
    if n / 2 < loops.len() {
        if n % 2 == 0 {
            return loops[n / 2].0;
        }
        return loops[n / 2].1;
    }
    fact_multiplier(facts, n - 2 * loops.len())
}

/// The multiplier of a never claim, and behind those a later one.
fn any_multiplier(nevers: &[i128], loops: &[(i128, i128)], facts: &[i128], n: usize) -> i128
    ensures { result ≡ never_by nevers.now loops.now facts.now n }
{
    if n < nevers.len() {
        return nevers[n];
    }
    later_multiplier(loops, facts, n - nevers.len())
}

/// The multiplier of the limit of that number.
pub fn multiplier(system: &System, cert: &Cert, limit: usize) -> i128
    requires { HasMultipliers system.now.claims cert.now }
    ensures { result ≡ by_at (limits system.now.claims cert.now) limit }
{
    any_multiplier(
        cert.nevers.as_slice(),
        cert.loops.as_slice(),
        cert.facts.as_slice(),
        limit,
    )
}
