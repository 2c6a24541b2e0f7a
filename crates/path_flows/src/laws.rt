// What is proved, by calls with empty bodies.
ghost use Rattle.path_places.specs.PlaceLaws.{IsReachedWhole};
ghost use Rattle.path_flows.specs.FlowLaws.{FlowsAreConserved};
ghost use Rattle.path_flows.specs.CountLaws.{FlowsKeepClaims, FlowsAreExact};

use code_flow_system::{LoopShape, Span, System};

/// A law: where the entry's worth is open, what leaves each address is what arrives there, at any prices.
pub fn flows_are_conserved(system: &System, shapes: &[LoopShape], spans: &[Span])
    requires { IsReachedWhole system.now shapes.now spans.now }
    ensures { FlowsAreConserved system.now shapes.now spans.now }
{}

/// A law: where worths are open, the listed flow is a flow of unit 1.
pub fn flows_keep_claims(system: &System, shapes: &[LoopShape], spans: &[Span])
    requires { IsReachedWhole system.now shapes.now spans.now }
    ensures { FlowsKeepClaims system.now shapes.now spans.now }
{}

/// A law: and limits that have multipliers hold with equality.
pub fn flows_are_exact(system: &System, shapes: &[LoopShape], spans: &[Span])
    requires { IsReachedWhole system.now shapes.now spans.now }
    ensures { FlowsAreExact system.now shapes.now spans.now }
{}
