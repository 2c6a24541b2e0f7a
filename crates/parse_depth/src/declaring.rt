ghost use Rattle.std.specs.Prelude.{◌≤◌, ◌↔◌, IsTrue, max};
ghost use Rattle.parse_begun.specs.Depths.{declarator_depth, head_depth, proto_depth};
ghost use Rattle.parse_depth.specs.Known.{declarator_known, head_known, proto_known};

use super::framing::scope_fits;
use parse_begun::begun::{Declarator, Head, Proto};
use parse_begun::part::ParamParts;

/// Whether what has begun is shallow enough where the next object is so deep.
#[tactic(auto, using(parse_begun::proofs::Deeper::scope_deeper, crate::proofs::Stops::objects_stop, crate::proofs::Stops::objects_go))]
pub fn head_fits(head: &Head, depth: u32) -> bool
    requires known { head_known head.now ≤ 256 }
    ensures { IsTrue result ↔ (head_depth head.now depth ≤ 256) }
{
    if 2 <= head.objects.depth && depth <= head.objects.depth {
        return true;
    }
    depth <= 256 && scope_fits(&head.scope, head.objects.depth.max(depth) + 1)
}

/// Whether what has begun is shallow enough where the parameters are so deep.
#[tactic(auto, using(parse_begun::proofs::Deeper::scope_deeper))]
pub fn proto_fits(proto: &Proto, depth: u32) -> bool
    requires known { proto_known proto.now ≤ 256 }
    ensures { IsTrue result ↔ (proto_depth proto.now depth ≤ 256) }
{
    depth <= 256 && scope_fits(&proto.scope, depth + 1)
}

/// Whether what has begun is shallow enough with a parameter of this depth more.
#[tactic(auto, using(crate::proofs::Stops::params_stop, crate::proofs::Stops::params_go))]
pub fn params_fit(proto: &Proto, front: &ParamParts, depth: u32) -> bool
    requires known { proto_depth proto.now front.now.depth ≤ 256 }
    ensures { IsTrue result ↔ (proto_depth proto.now (max front.now.depth depth) ≤ 256) }
{
    if depth <= front.depth {
        return true;
    }
    proto_fits(proto, front.depth.max(depth))
}

/// Whether what has begun is shallow enough where the size is so deep.
#[tactic(auto, using(parse_begun::proofs::Deeper::declarator_deeper))]
pub fn declarator_fits(declarator: &Declarator, depth: u32) -> bool
    requires known { declarator_known declarator.now ≤ 256 }
    ensures { IsTrue result ↔ (declarator_depth declarator.now depth ≤ 256) }
{
    if depth > 256 {
        return false;
    }
    match declarator {
        Declarator::OfObject(head, _) => head_fits(head, depth + 1),
        Declarator::OfParam(param) => params_fit(&param.proto, &param.front, depth + 1),
    }
}
