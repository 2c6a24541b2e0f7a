// How two sums are compared.

/// The sign between the two sides of a flow restriction.
#[derive(Clone, Copy, Debug)]
pub enum Compare {
    /// `<=`
    AtMost,
    /// `>=`
    AtLeast,
    /// `=`
    Equal,
}
