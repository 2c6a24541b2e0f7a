// Numbers of places.
ghost use Rattle.std.specs.Prelude.{◌≡◌, ◌≤◌, ◌<◌, ℕ, pos, length};
ghost use Rattle.loop_flows.specs.Passes.{amount_at};
ghost use Rattle.path_places.specs.Places.{place_of};
ghost use Rattle.path_flow_counts.specs.Puts.{IsPut};

use crate::tally::Tally;
use code_flow_system::Span;
use path_walks::{Priced, place_of};

/// Puts the numbers of the places from one up to another to one number.
fn put(numbers: &mut [i128], from: usize, to: usize, number: i128)
    requires { to ≤ length numbers.now }
    ensures { IsPut from to number numbers.old numbers.new }
{
    for place in from..to {
        numbers[place] = number;
    }
}

/// Puts the worths and weights of a function's places back to what they are before it is settled.
pub(crate) fn unsettle(priced: Priced, span: Span, worths: &mut [i128], weights: &mut [i128])
    requires worths { length priced.system.now.moves < length worths.now }
    requires weights { length priced.system.now.moves < length weights.now }
    ensures worths { IsPut (place_of priced.entry.system.now.moves span.first) (place_of priced.entry.system.now.moves span.end) priced.entry.low worths.old worths.new }
    ensures weights { IsPut (place_of priced.entry.system.now.moves span.first) (place_of priced.entry.system.now.moves span.end) (pos 0) weights.old weights.new }
{
    let moves = priced.system.moves();
    let first = place_of(moves, span.first);
    let end = place_of(moves, span.end);
    put(worths, first, end, priced.low);
    put(weights, first, end, 0);
}

/// Copies what is started at the places from one up to another into the room.
pub(crate) fn copy(tally: &mut Tally, from: usize, to: usize)
    requires starts { to ≤ length tally.now.starts.now }
    requires room { to ≤ length tally.now.room.now }
    ensures starts { tally.new.starts.now ≡ tally.old.starts.now }
    ensures amounts { tally.new.amounts.now ≡ tally.old.amounts.now }
    ensures room { length tally.new.room.now ≡ length tally.old.room.now }
    ensures copied { (a : ℕ) → from ≤ a → a < to → amount_at tally.new.room.now a ≡ amount_at tally.old.starts.now a }
{
    for place in from..to {
        let count = tally.starts[place];
        tally.room[place] = count;
    }
}
