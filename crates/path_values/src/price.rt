// The cycles of moves as prices.
ghost use Rattle.std.specs.Prelude.{◌≡◌, IfOk, map};
ghost use Rattle.rv_core.specs.Table.{table_of};
ghost use Rattle.code_flow_system.specs.Flows.{price};

use code_flow_lookup::move_cost;
use code_flow_system::System;
use rv_core::Costs;
use std::alloc::{AllocError, Global};

/// The cycles of each move, in their order.
pub fn prices(alloc: Global, system: &System, costs: &Costs) -> Result<Vec<i128>, AllocError>
    ensures { IfOk result (λ v. v.items ≡ map (price (table_of costs.now) system.now) system.now.moves) }
{
    let moves = system.moves();
    let mut prices = Vec::new(alloc);
    for i in 0..moves.len() {
        prices.push(i128::from(move_cost(system, costs, &moves[i])))?;
    }
    Ok(prices)
}
