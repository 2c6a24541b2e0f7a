// Intervals of places.
ghost use Rattle.std.specs.Prelude.{◌≡◌};
ghost use Rattle.register_live_ranges.specs.Intervals.{widened};

/// The places of a function from one to another. Its places are its instructions and the ends of its blocks, in order.
#[derive(Clone, Copy)]
pub struct Interval {
    pub first: usize,
    pub last: usize,
}

/// With one place more.
pub fn widened(interval: Option<Interval>, at: usize) -> Interval
    ensures { result ≡ widened interval at }
{
    match interval {
        None => Interval {
            first: at,
            last: at,
        },
        Some(interval) => Interval {
            first: interval.first.min(at),
            last: interval.last.max(at),
        },
    }
}
