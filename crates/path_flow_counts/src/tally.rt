// What is counted of a flow.

/// The flow of a system as far as it is counted, modulo 2^128.
#[derive(Drop)]
pub(crate) struct Tally<'a> {
    /// How often a function is started at each place.
    pub(crate) starts: &'a mut [u128],
    /// How often each move is made.
    pub(crate) amounts: &'a mut [u128],
    /// Room for counts of all places, while one function is added.
    pub(crate) room: &'a mut [u128],
}
