use facts_definitions::Bounds;
use make_expression::Scope;

/// Where objects live, the bounds of the source's loops, and how many functions have marks before the markers.
#[derive(Clone, Copy)]
pub struct Plan<'a> {
    pub scope: Scope<'a>,
    pub bounds: &'a [Bounds],
    pub functions: u32,
}
