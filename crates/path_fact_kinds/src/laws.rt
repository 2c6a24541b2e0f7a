// What flows are together.
ghost use Rattle.rv_core.specs.Table.{table_of};
ghost use Rattle.path_fact_kinds.specs.MixLaws.{MixesAreFlows};

use code_flow_system::System;
use rv_core::Costs;

/// A law: flows without the facts, so often each, are a flow where their totals together keep the facts.
pub fn mixes_are_flows(system: &System, costs: &Costs)
    ensures { MixesAreFlows (table_of costs.now) system.now }
{}
