// What loops add where they begin.
ghost use Rattle.std.specs.Prelude.{◌≡◌, ◌≢◌, ◌<◌, ◌^◌, ◌*◌, pos, unsigned_abs, length, MatchOption, All};
ghost use Rattle.code_flow_system.specs.Loose.{most_turns};
ghost use Rattle.loop_prices.specs.LoopPrices.{turns_at, starts, starts_from};
ghost use Rattle.path_walks.specs.Opens.{AddressesRise};
ghost use Rattle.path_loose_fit.specs.Rows.{IsClaimOf};

use code_flow_system::LoopClaim;

/// The number of the claim of a header, if there is one. Found by halving.
fn claim_of(loops: &[LoopClaim], header: u32) -> Option<usize>
    requires { AddressesRise (λ c. c.header) loops.now }
    ensures { MatchOption result (All (λ c. c.header ≢ header) loops.now) (IsClaimOf loops.now header) }
{
    let first = loops.partition_point(|claim| claim.header < header);
    let end = loops.partition_point(|claim| claim.header <= header);
    if first < end { Some(first) } else { None }
}

/// How often a loop multiplies its starts.
fn most_turns(claim: LoopClaim) -> i128
    ensures value { result ≡ pos (most_turns claim) }
    ensures small { unsigned_abs result < 2 ^ 32 }
{
    if claim.max == 0 {
        return 1;
    }
    i128::from(claim.max)
}

/// What the turns of a loop are worth for each start.
fn start(claim: LoopClaim, turn: u64) -> i128
    ensures value { result ≡ pos (most_turns claim * turn) }
    ensures small { unsigned_abs result < 2 ^ 96 }
{
    most_turns(claim) * i128::from(turn)
}

/// What the loop of a header adds to its worth.
pub fn turns_at(loops: &[LoopClaim], turns: &[u64], at: u32) -> i128
    requires rises { AddressesRise (λ c. c.header) loops.now }
    requires long { length turns.now ≡ length loops.now }
    ensures value { result ≡ turns_at loops.now turns.now at }
    ensures small { unsigned_abs result < 2 ^ 96 }
{
    match claim_of(loops, at) {
        Some(place) => i128::from(turns[place]),
        None => 0,
    }
}

/// The worth of all turns of the loop of a header.
pub fn starts(loops: &[LoopClaim], turns: &[u64], at: u32) -> i128
    requires rises { AddressesRise (λ c. c.header) loops.now }
    requires long { length turns.now ≡ length loops.now }
    ensures value { result ≡ starts loops.now turns.now at }
    ensures small { unsigned_abs result < 2 ^ 96 }
{
    match claim_of(loops, at) {
        Some(place) => start(loops[place], turns[place]),
        None => 0,
    }
}

/// The same, if an address isn't the loop's jump back.
pub fn starts_from(loops: &[LoopClaim], turns: &[u64], from: u32, at: u32) -> i128
    requires rises { AddressesRise (λ c. c.header) loops.now }
    requires long { length turns.now ≡ length loops.now }
    ensures value { result ≡ starts_from loops.now turns.now from at }
    ensures small { unsigned_abs result < 2 ^ 96 }
{
    match claim_of(loops, at) {
        Some(place) => {
            if loops[place].back == from {
                return 0;
            }
            start(loops[place], turns[place])
        }
        None => 0,
    }
}
