// Ranges that nest.
ghost use Rattle.std.specs.Prelude.{◌≡◌, ◌↔◌, ◌+◌, ◌≤◌, ◌<◌, true, false, nat_le, length, All};
ghost use Rattle.std.specs.List.Sorted.{IsPartitionPoint};
ghost use Rattle.code_flow_system.specs.Shapes.{AreNested, AreAllNested};
ghost use Rattle.path_fit.specs.Nests.{IsFilled, FirstsAscend, IsClosed, AreClosedFrom};

use code_flow_system::LoopShape;

/// Whether two ranges have no address in common, or one lies in the other.
fn nests(a: LoopShape, b: LoopShape) -> bool
    ensures { (result ≡ true) ↔ AreNested a b }
{
    a.last < b.first
        || (b.last < a.first
            || ((b.first <= a.first && a.last <= b.last)
                || (a.first <= b.first && b.last <= a.last)))
}

fn nests_with(shape: LoopShape, others: &[LoopShape]) -> bool
    ensures { (result ≡ true) ↔ All (AreNested shape) others.now }
{
    for i in 0..others.len() {
        if !nests(shape, others[i]) {
            return false;
        }
    }
    true
}

/// Whether ranges in any order nest, pair by pair.
fn nest_by_pairs(shapes: &[LoopShape]) -> bool
    ensures { (result ≡ true) ↔ AreAllNested shapes.now }
{
    for i in 0..shapes.len() {
        if !nests_with(shapes[i], &shapes[i + 1..]) {
            return false;
        }
    }
    true
}

/// Whether each range begins behind the beginning of the one before it.
fn firsts_ascend(shapes: &[LoopShape]) -> bool
    ensures { (result ≡ true) ↔ FirstsAscend shapes.now }
{
    for i in 1..shapes.len() {
        if shapes[i].first <= shapes[i - 1].first {
            return false;
        }
    }
    true
}

/// How many ranges begin at an address or before it.
fn begun_by(shapes: &[LoopShape], at: u32) -> usize
    requires { FirstsAscend shapes.now }
    ensures bound { result ≤ length shapes.now }
    ensures point { IsPartitionPoint (λ l. nat_le l.first at ≡ true) (λ l. nat_le l.first at ≡ false) shapes.now result }
{
    shapes.partition_point(|shape| shape.first <= at)
}

/// Whether the ranges that begin within one end within it. Those that lie in one of them are passed over, since the
/// ranges behind this one are known to nest.
fn is_closed(shapes: &[LoopShape], place: usize) -> bool
    requires place { place < length shapes.now }
    requires ascending { FirstsAscend shapes.now }
    requires filled { All IsFilled shapes.now }
    requires behind { AreClosedFrom (place + 1) shapes.now }
    ensures { (result ≡ true) ↔ IsClosed shapes.now place }
{
    let last = shapes[place].last;
    let mut next = place + 1;
    while next < shapes.len() {
        let inner = shapes[next];
        if last < inner.first {
            return true;
        }
        if last < inner.last {
            return false;
        }
        next = begun_by(shapes, inner.last);
    }
    true
}

/// Whether ranges nest that begin one behind the other.
fn nest_in_order(shapes: &[LoopShape]) -> bool
    requires ascending { FirstsAscend shapes.now }
    requires filled { All IsFilled shapes.now }
    ensures { (result ≡ true) ↔ AreAllNested shapes.now }
{
    for i in 0..shapes.len() {
        if !is_closed(shapes, shapes.len() - 1 - i) {
            return false;
        }
    }
    true
}

/// Whether ranges nest, none of which is empty.
pub fn nest(shapes: &[LoopShape]) -> bool
    requires { All IsFilled shapes.now }
    ensures { (result ≡ true) ↔ AreAllNested shapes.now }
{
    if firsts_ascend(shapes) {
        return nest_in_order(shapes);
    }
    nest_by_pairs(shapes)
}
