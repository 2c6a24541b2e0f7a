// What is proved, by calls with empty bodies.
ghost use Rattle.path_places.specs.PlaceLaws.{IsReachedWhole};
ghost use Rattle.path_cert.specs.SlackLaws.{FlowsAreSlackless, ValuesAreReached};
ghost use Rattle.rv_core.specs.Table.{table_of};
ghost use Rattle.path_cert.specs.Accepted.{CertificatesAreAccepted};
ghost use Rattle.path_cert.specs.BoundLaws.{BoundsAreGreatest};
ghost use Rattle.path_cert.specs.PricedFlows.{PricedFlowsAreFlows};
ghost use Rattle.path_cert.specs.Priced.{PricesPayFacts};
ghost use Rattle.path_cert.specs.Facts.{FactFlowsAreBest, FactNumbersFit, FactsAreBounded};
ghost use Rattle.path_cert.specs.BestLaws.{BestFlowsAreFound, FactsAreAccepted, FactsHaveRanges, SizesCoverPrices};

use code_flow_system::{LoopShape, Span, System};
use rv_core::Costs;

/// A law: where worths are open, the listed flow is without slack, at any prices.
pub fn flows_are_slackless(system: &System, shapes: &[LoopShape], spans: &[Span])
    requires { IsReachedWhole system.now shapes.now spans.now }
    ensures { FlowsAreSlackless system.now shapes.now spans.now }
{}

/// A law: and its total is the worth of the entry.
pub fn values_are_reached(system: &System, shapes: &[LoopShape], spans: &[Span])
    requires { IsReachedWhole system.now shapes.now spans.now }
    ensures { ValuesAreReached system.now shapes.now spans.now }
{}

/// A law: where its numbers keep their ranges, the certificate of the walks is in form and accepted.
pub fn certificates_are_accepted(
    system: &System,
    shapes: &[LoopShape],
    spans: &[Span],
    costs: &Costs,
)
    requires { IsReachedWhole system.now shapes.now spans.now }
    ensures { CertificatesAreAccepted (table_of costs.now) system.now shapes.now spans.now }
{}

/// A law: where loose flows have small values, so it is.
pub fn bounds_are_greatest(system: &System, shapes: &[LoopShape], spans: &[Span], costs: &Costs)
    ensures { BoundsAreGreatest (table_of costs.now) system.now shapes.now spans.now }
{}

/// A law: at prices of moves that are no more than their costs, what the walks list is a flow of the entry's worth.
pub fn priced_flows_are_flows(system: &System, shapes: &[LoopShape], spans: &[Span], costs: &Costs)
    ensures { PricedFlowsAreFlows (table_of costs.now) system.now shapes.now spans.now }
{}

/// A law: where the entry is open, as it is if there is a flow without facts, the walks list a best one, at prices of both signs.
pub fn best_flows_are_found(system: &System, shapes: &[LoopShape], spans: &[Span])
    ensures { BestFlowsAreFound system.now shapes.now spans.now }
{}

/// A law: a total at prices that pay for facts is the value over the scale, less what the facts' totals come to.
pub fn prices_pay_facts(system: &System, costs: &Costs)
    ensures { PricesPayFacts (table_of costs.now) system.now }
{}

/// A law: the certificate of the walks at such prices is in form and accepted.
pub fn facts_are_accepted(system: &System, shapes: &[LoopShape], spans: &[Span], costs: &Costs)
    requires { IsReachedWhole system.now shapes.now spans.now }
    ensures { FactsAreAccepted (table_of costs.now) system.now shapes.now spans.now }
{}

/// A law: the sizes of such prices are no smaller.
pub fn sizes_cover_prices(system: &System, costs: &Costs)
    ensures { SizesCoverPrices (table_of costs.now) system.now }
{}

/// A law: the numbers of that certificate keep their ranges.
pub fn facts_have_ranges(system: &System, shapes: &[LoopShape], spans: &[Span], costs: &Costs)
    ensures { FactsHaveRanges (table_of costs.now) system.now shapes.now spans.now }
{}

/// A law: where loose flows have bounds, so have walks that pay for facts.
pub fn facts_are_bounded(system: &System, shapes: &[LoopShape], spans: &[Span], costs: &Costs)
    ensures { FactsAreBounded (table_of costs.now) system.now shapes.now spans.now }
{}

/// A law: and where scale and multipliers are narrow, so are their numbers.
pub fn fact_numbers_fit()
    ensures { FactNumbersFit }
{}

/// A law: and so walks that pay for facts fit into 128 bits, and find a best flow with small amounts.
pub fn fact_flows_are_best(system: &System, shapes: &[LoopShape], spans: &[Span], costs: &Costs)
    ensures { FactFlowsAreBest (table_of costs.now) system.now shapes.now spans.now }
{}
