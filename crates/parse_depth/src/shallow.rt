ghost use Rattle.std.specs.Prelude.{◌≤◌, ◌↔◌, IsTrue};
ghost use Rattle.parse_begun.specs.View.{Names, state_of};
ghost use Rattle.parse_begun.specs.Depths.{braces_depth, state_depth};
ghost use Rattle.parse_begun.specs.declared.begun.State.TheVariants.{OfOperand, OfProto, OfStatement};
ghost use Rattle.parse_depth.specs.Known.{among_known, state_known};
ghost use Rattle.parse_grammar.specs.Depth.{deep};

use super::declaring::{declarator_fits, head_fits, params_fit, proto_fits};
use super::framing::{braces_fit, frames_fit, items_fit, scope_fits};
use super::stacking::{stack_fits, test_fits};
use parse_begun::begun::{
    AtDeclarator, AtHead, AtOperand, AtProto, AtReceiver, AtStatement, Braces, Frames, Proto,
    Stack, State,
};
use parse_begun::part::ItemParts;

/// Whether what has begun is shallow enough where these are the items so far.
#[tactic(auto, using(crate::proofs::Stops::among_stop, crate::proofs::Stops::before_stop, crate::proofs::Stops::among_go))]
fn among_fits(front: &ItemParts, braces: &Braces) -> bool
    requires known { among_known braces.now front.now.depth front.now.depth_before ≤ 256 }
    ensures { IsTrue result ↔ (braces_depth braces.now front.now.depth ≤ 256) }
{
    if front.depth >= 3 {
        return true;
    }
    if 1 <= front.depth_before && front.depth <= front.depth_before {
        return true;
    }
    braces_fit(braces, front.depth)
}

/// Whether an operand is shallow enough.
fn operand_fits(at: &AtOperand, under: &Stack) -> bool
    requires known { state_known (OfOperand at.now under.now) ≤ 256 }
    ensures { IsTrue result ↔ (state_depth (OfOperand at.now under.now) ≤ 256) }
{
    match at {
        AtOperand::Wants => stack_fits(under, 1),
        AtOperand::Has(tree) => stack_fits(under, tree.depth),
        AtOperand::Opened { .. } => stack_fits(under, 2),
        AtOperand::Typed { .. } => stack_fits(under, 2),
        AtOperand::Called(_) => stack_fits(under, 1),
    }
}

/// Whether a statement is shallow enough.
fn statement_fits(at: &AtStatement, under: &Box<Frames>) -> bool
    requires known { state_known (OfStatement at.now under.now) ≤ 256 }
    ensures { IsTrue result ↔ (state_depth (OfStatement at.now under.now) ≤ 256) }
{
    match at {
        AtStatement::Stands(statement) => frames_fit(under, statement.depth),
        AtStatement::Closes(statement) => frames_fit(under, statement.depth),
        AtStatement::Chooses { test, .. } => frames_fit(under, test.depth + 1),
        AtStatement::LoopTests(head) => frames_fit(under, head.start.depth + 1),
        AtStatement::LoopSteps(head) => {
            frames_fit(under, head.start.depth.max(head.test.depth) + 1)
        }
        AtStatement::Begins => frames_fit(under, 1),
        AtStatement::Bounded(_) => frames_fit(under, 1),
        AtStatement::Answers { .. } => frames_fit(under, 1),
        AtStatement::Loops(_) => frames_fit(under, 1),
        AtStatement::LoopStarts(_) => frames_fit(under, 1),
    }
}

/// Whether what follows a function's name is shallow enough.
fn signing_fits(at: &AtProto, proto: &Proto) -> bool
    requires known { state_known (OfProto at.now proto.now) ≤ 256 }
    ensures { IsTrue result ↔ (state_depth (OfProto at.now proto.now) ≤ 256) }
{
    match at {
        AtProto::Named => proto_fits(proto, 0),
        AtProto::ParamsOpen => proto_fits(proto, 0),
        AtProto::ParamSpecified { front, .. } => params_fit(proto, front, 1),
        AtProto::ParamNext(_) => true,
        AtProto::ParamsDone(_) => true,
    }
}

/// Whether a state is shallow enough, by the depths that stand beside its parts.
fn state_fits(state: &State) -> bool
    requires known { state_known state.now ≤ 256 }
    ensures { IsTrue result ↔ (state_depth state.now ≤ 256) }
{
    match state {
        State::OfOperand(at, under) => operand_fits(at, under),
        State::OfStatement(at, under) => statement_fits(at, under),
        State::OfHead(AtHead::Further, head) => head_fits(head, 1),
        State::OfHead(AtHead::Ended(object), head) => head_fits(head, object.depth),
        State::OfReceiver(AtReceiver::Initial, object) => {
            head_fits(&object.head, object.shape.depth + 1)
        }
        State::OfReceiver(AtReceiver::Listed(_), _) => true,
        State::OfDeclarator(AtDeclarator::Shaped(shape), declarator) => {
            declarator_fits(declarator, shape.depth)
        }
        State::OfDeclarator(AtDeclarator::Declares, declarator) => declarator_fits(declarator, 0),
        State::OfDeclarator(AtDeclarator::Sizing, declarator) => declarator_fits(declarator, 0),
        State::OfProto(at, proto) => signing_fits(at, proto),
        State::File(front) => front.depth < 256,
        State::Among(front, braces) => among_fits(front, braces),
        State::Defaults { front, braces, .. } => items_fit(braces, front, 1),
        State::Opens(test) => test_fits(test, 1),
        State::Specified { scope, .. } => scope_fits(scope, 1),
    }
}

/// Whether what has begun is at most 256 nodes deep, whatever follows, where what had begun before its
/// newest part was.
///
/// It looks at what has begun from the inside outwards, and stops where something as deep as the newest
/// part stands beside it.
#[tactic(auto, using(parse_begun::proofs::SameDepths::state_same))]
pub fn is_shallow(state: &State) -> bool
    requires known { state_known state.now ≤ 256 }
    ensures kept { IsTrue result ↔ (state_depth state.now ≤ 256) }
    ensures deep { (f : Names) → IsTrue result ↔ (deep (state_of f state.now) ≤ 256) }
{
    state_fits(state)
}
