// The multipliers are those of the walks' dual values.
ghost use Rattle.rv_core.specs.Table.{table_of};
ghost use Rattle.path_values.specs.Laws.{MultipliersAre};

use code_flow_system::System;
use rv_core::Costs;

/// A law: where no row is wide, the multipliers that are found beside the certificate of the walks' values are those
/// with which these values cover every move.
pub fn multipliers_are(system: &System, costs: &Costs)
    ensures { MultipliersAre (table_of costs.now) system.now }
{}
