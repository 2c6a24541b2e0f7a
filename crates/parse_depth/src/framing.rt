ghost use Rattle.std.specs.Prelude.{◌≤◌, ◌↔◌, IsTrue, max};
ghost use Rattle.parse_begun.specs.Depths.{braces_depth, frames_depth, header_depth, scope_depth};
ghost use Rattle.parse_depth.specs.Known.{braces_known, frames_known, scope_known};

use parse_begun::begun::{Braces, Frames, Header, Scope};
use parse_begun::part::ItemParts;

/// Whether a function is shallow enough where the items of its body are so deep.
fn header_fits(header: &Header, depth: u32) -> bool
    ensures { IsTrue result ↔ (header_depth header.now depth ≤ 256) }
{
    depth <= 256
        && header
            .front
            .depth
            .max(header.params.depth.max(depth + 1) + 1)
            < 256
}

/// Whether what has begun is shallow enough where the statement in it is so deep.
#[cycle(framing)]
#[tactic(auto, using(parse_begun::proofs::Deeper::frames_deeper, crate::proofs::Stops::items_stop, crate::proofs::Stops::items_go))]
pub fn frames_fit(under: &Frames, depth: u32) -> bool
    requires known { frames_known under.now ≤ 256 }
    ensures { IsTrue result ↔ (frames_depth under.now depth ≤ 256) }
{
    if depth > 256 {
        return false;
    }
    match under {
        Frames::InItems(front, braces) => {
            if depth <= front.depth {
                return true;
            }
            braces_fit(braces, front.depth.max(depth))
        }
        Frames::InThen {
            test,
            under: rest,
            ..
        } => frames_fit(rest, test.depth.max(depth) + 1),
        Frames::InElse {
            test,
            first,
            under: rest,
            ..
        } => { frames_fit(rest, test.depth.max(first.depth).max(depth) + 1) }
        Frames::InWhile(_, test, rest) => frames_fit(rest, test.depth.max(depth) + 1),
        Frames::InDo(_, rest) => frames_fit(rest, depth + 1),
        Frames::InFor(head, rest) => {
            let start = head.start.depth.max(head.test.depth);
            frames_fit(rest, start.max(head.step.depth).max(depth) + 1)
        }
    }
}

/// Whether what has begun is shallow enough where the items between the braces are so deep.
#[cycle(framing)]
#[tactic(auto, using(parse_begun::proofs::Deeper::braces_deeper))]
pub fn braces_fit(braces: &Braces, depth: u32) -> bool
    requires known { braces_known braces.now ≤ 256 }
    ensures { IsTrue result ↔ (braces_depth braces.now depth ≤ 256) }
{
    if depth > 256 {
        return false;
    }
    match braces {
        Braces::OfBlock { under: rest, .. } => frames_fit(rest, depth + 1),
        Braces::OfSwitch {
            test,
            under: rest,
            ..
        } => frames_fit(rest, test.depth.max(depth) + 1),
        Braces::OfFunction(header) => header_fits(header, depth),
    }
}

/// Whether what has begun is shallow enough with an item of this depth more.
#[tactic(auto, using(crate::proofs::Stops::items_stop, crate::proofs::Stops::items_go))]
pub fn items_fit(braces: &Braces, front: &ItemParts, depth: u32) -> bool
    requires known { braces_depth braces.now front.now.depth ≤ 256 }
    ensures { IsTrue result ↔ (braces_depth braces.now (max front.now.depth depth) ≤ 256) }
{
    if depth <= front.depth {
        return true;
    }
    braces_fit(braces, front.depth.max(depth))
}

/// Whether what has begun is shallow enough where the declaration is so deep.
#[tactic(auto, using(parse_begun::proofs::Deeper::scope_deeper))]
pub fn scope_fits(scope: &Scope, depth: u32) -> bool
    requires known { scope_known scope.now ≤ 256 }
    ensures { IsTrue result ↔ (scope_depth scope.now depth ≤ 256) }
{
    if depth > 256 {
        return false;
    }
    match scope {
        Scope::AtFile(front) => front.depth.max(depth) < 256,
        Scope::AmongItems(front, braces) => items_fit(braces, front, depth),
        Scope::AtFor(_, under) => frames_fit(under, depth + 1),
    }
}
