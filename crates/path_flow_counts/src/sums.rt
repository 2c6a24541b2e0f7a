// What a function adds to the flow of a system.
ghost use Rattle.std.specs.Prelude.{◌≡◌, ◌<◌, length, All, slice_index_or};
ghost use Rattle.code_flow_system.specs.Systems.{AreAscending};
ghost use Rattle.loop_flow_counts.specs.Wraps.{SameCounts};
ghost use Rattle.path_flows.specs.Flows.{counted, call_starts, called};
ghost use Rattle.path_places.specs.Places.{is_walked};
ghost use Rattle.path_walks.specs.Opens.{AddressesRise, GoesBack, HasLoops};
ghost use Rattle.path_flow_counts.specs.Sums.{backed, counts_next, HasCounted};

use crate::tally::Tally;
use code_flow_system::{Move, Span};
use loop_flow_counts::{Back, add};
use path_walks::{Priced, is_open, place_of};

/// A call that is made so often starts the called function as often.
fn start_called(moves: &[Move], step: &Move, count: u128, starts: &mut [u128])
    requires ascending { AreAscending moves.now }
    requires long { length moves.now < length starts.now }
    ensures { SameCounts starts.new (call_starts moves.now step.now.to step.now.behind count starts.old) }
{
    if let (Some(to), Some(_)) = (step.to, step.behind) {
        add(starts, place_of(moves, to), count);
    }
}

/// How often each step of a function is made, and how many of these counts are used.
#[derive(Clone, Copy)]
struct Counts<'a> {
    all: &'a [u128],
    used: usize,
}

/// Adds the next count to a move's, if a walk goes through its address, and says how many counts are used then.
fn add_move(priced: Priced, place: usize, step: &Move, counts: Counts, tally: &mut Tally) -> usize
    requires headers { AddressesRise (λ l. l.header) priced.shapes.now }
    requires back { GoesBack priced.shapes.now step.now }
    requires place { place < length tally.now.amounts.now }
    requires long { length priced.system.now.moves < length tally.now.starts.now }
    ensures room { tally.new.room.now ≡ tally.old.room.now }
    ensures long_starts { length tally.new.starts.now ≡ length tally.old.starts.now }
    ensures counted { HasCounted priced.entry.system.now.moves (counts_next priced.entry.system.now.claims priced.entry.shapes.now step.now.at counts.entry.all.now counts.entry.used) step.now place (slice_index_or counts.entry.all.now counts.entry.used 0) counts.entry.used tally.old.amounts.now tally.old.starts.now result tally.new.amounts.now tally.new.starts.now }
{
    let Counts { all, used } = counts;
    let moves = priced.system.moves();
    if used >= all.len() {
        return used;
    }
    if !is_open(priced.system.claims(), priced.shapes, step) {
        return used;
    }
    add(tally.amounts, place, all[used]);
    start_called(moves, step, all[used], tally.starts);
    used + 1
}

/// Adds the counts of a function's steps to those of its moves, and starts what it calls.
pub(crate) fn add_counts(priced: Priced, span: Span, counts: &[u128], tally: &mut Tally)
    requires loops { HasLoops priced.system.now priced.shapes.now }
    requires amounts { length tally.now.amounts.now ≡ length priced.system.now.moves }
    requires long { length priced.system.now.moves < length tally.now.starts.now }
    ensures room { tally.new.room.now ≡ tally.old.room.now }
    ensures long_amounts { length tally.new.amounts.now ≡ length tally.old.amounts.now }
    ensures long_starts { length tally.new.starts.now ≡ length tally.old.starts.now }
    ensures amounts { SameCounts tally.new.amounts.now (counted (is_walked priced.entry.system.now.claims priced.entry.shapes.now span) priced.entry.system.now.moves tally.old.amounts.now counts.now) }
    ensures starts { SameCounts tally.new.starts.now (called priced.entry.system.now.moves (is_walked priced.entry.system.now.claims priced.entry.shapes.now span) priced.entry.system.now.moves counts.now tally.old.starts.now) }
{
    let moves = priced.system.moves();
    let first = place_of(moves, span.first);
    let end = place_of(moves, span.end);
    let mut used = 0;
    for i in first..end {
        let next = Counts { all: counts, used };
        used = add_move(priced, i, &moves[i], next, tally);
    }
}

/// Adds how often jumps back are made.
pub(crate) fn add_backs(amounts: &mut [u128], backs: &[Back])
    requires { All (λ b. b.place < length amounts.now) backs.now }
    ensures { amounts.new ≡ backed backs.now amounts.old }
{
    for k in 0..backs.len() {
        add(amounts, backs[k].place, backs[k].count);
    }
}
