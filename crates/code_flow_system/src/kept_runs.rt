// What flows say of runs.
ghost use Rattle.std.specs.Prelude.{◌<◌};
ghost use Rattle.rv_core.specs.Table.{table_of};
ghost use Rattle.code_flow_system.specs.Systems.{IsSystemOf};
ghost use Rattle.code_flow_system.specs.KeptRuns.{RunsAreFlows, BoundsRuns};
ghost use Rattle.code_flow_system.specs.Certificates.{Accepts};

use crate::{Cert, System};
use rv_core::{Costs, Image, code_stays};

/// A finished run of the image that keeps the claims is a flow of unit 1: its moves are conserved,
/// its counts keep the claims, and its value is at least the run's cycles.
pub fn runs_are_flows(image: &Image, costs: &Costs, system: &System)
    requires { IsSystemOf image.now system.now.claims system.now }
    ensures { RunsAreFlows image.now (table_of costs.now) system.now }
{
    code_stays(image);
}

/// So each finished run that keeps the claims ends within the cycles of an accepted certificate.
pub fn bounds_runs(image: &Image, costs: &Costs, system: &System, cert: &Cert)
    requires system { IsSystemOf image.now system.now.claims system.now }
    requires scale { 0 < cert.now.scale }
    requires accepted { Accepts (table_of costs.now) system.now cert.now }
    ensures { BoundsRuns image.now (table_of costs.now) system.now cert.now }
{
    runs_are_flows(image, costs, system);
}
