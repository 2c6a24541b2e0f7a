// What certificates say of all flows.
ghost use Rattle.rv_core.specs.Table.{table_of};
ghost use Rattle.code_flow_system.specs.Certificates.{Accepts, IsInForm};
ghost use Rattle.code_flow_system.specs.Loose.{FlowsAreLoose};
ghost use Rattle.code_flow_system.specs.Bounds.{BoundsFlows, KeepsPromise, Dual, IsDual, BoundsTotals, ReachesPotential};

use crate::{Cert, System};
use rv_core::Costs;

/// Weak duality: where a certificate is accepted, no flow has a value above the entry's potential
/// over the scale. With the mark greatest the listed flow has exactly that value, and with the
/// mark empty there is no flow.
pub fn weak_duality(system: &System, costs: &Costs, cert: &Cert)
    requires form { IsInForm system.now.claims cert.now }
    requires accepted { Accepts (table_of costs.now) system.now cert.now }
    ensures bound { BoundsFlows (table_of costs.now) system.now cert.now }
    ensures promise { KeepsPromise (table_of costs.now) system.now cert.now }
{}

/// The same for any prices of the moves and any limits of the counts; and a total without slack
/// reaches the bound.
pub fn duality_of_prices(system: &System)
    ensures bound { (d : Dual) → IsDual system.now d → BoundsTotals system.now d }
    ensures reached { (d : Dual) → ReachesPotential system.now d }
{}

/// Where each back jump goes to its own header alone, every flow is a loose one.
pub fn flows_are_loose(system: &System)
    ensures { FlowsAreLoose system.now }
{}
