// Steps and loops over places.

/// A way on from a place, at a price: to a later place, or out to the place behind all others.
#[derive(Clone, Copy)]
pub struct Step {
    pub at: usize,
    pub on: usize,
    pub price: i128,
}

/// A loop over places and over the steps of a list. Its range begins at the header and ends before the place `end`.
#[derive(Clone, Copy)]
pub struct Loop {
    pub header: usize,
    pub end: usize,
    /// The place of the jump back, if it is reached and may be visited.
    pub back: Option<usize>,
    /// The price of the jump back.
    pub price: i128,
    /// The header's steps are those from the first of these numbers up to the second, and the other steps of the
    /// range those from the second up to the third.
    pub head: usize,
    pub body: usize,
    pub rest: usize,
    /// How often the header is visited for each start from outside.
    pub min: u32,
    pub max: u32,
}

/// The multipliers of a loop's bounds, with the counts H of its header and J of its jump back: that of
/// `min * (H - J) <= H` and that of `H <= max * (H - J)`.
#[derive(Clone, Copy)]
pub struct Pair {
    pub least: i128,
    pub most: i128,
}

/// The steps of a function, ascending by where they begin, and its loops, ascending by their headers.
#[derive(Clone, Copy)]
pub struct Code<'a> {
    pub steps: &'a [Step],
    pub loops: &'a [Loop],
}
