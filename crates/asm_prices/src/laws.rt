// What is proved, by calls with empty bodies.
ghost use Rattle.asm_prices.specs.Worths.{LooseFlowsAreBounded};
ghost use Rattle.rv_core.specs.Table.{table_of};
ghost use Rattle.asm_prices.specs.Chosen.{ChosenHasCode};
ghost use Rattle.asm_prices.specs.Bounds.{CountsBelowWeight, CountsBelowReach, MovesCostFew, ValuesBelowWeight};

use rv_core::Costs;

/// No loose flow of an image of laid code has a total above its unit times what the code is worth.
pub fn loose_flows_are_bounded()
    ensures { LooseFlowsAreBounded }
{}

/// The counts of a loose flow add up to at most the weight of the program per unit.
pub fn counts_below_weight()
    ensures { CountsBelowWeight }
{}

/// At the addresses of a mark they add up to at most its reach per unit.
pub fn counts_below_reach()
    ensures { CountsBelowReach }
{}

/// No move costs more than 4000 cycles.
pub fn moves_cost_few(costs: &Costs)
    ensures { MovesCostFew (table_of costs.now) }
{}

/// So its value is at most 4000 times the weight per unit.
pub fn values_below_weight(costs: &Costs)
    ensures { ValuesBelowWeight (table_of costs.now) }
{}

/// A program in the forms that are chosen for its items, in rows of flash and of the scratchpad, has its code there.
pub fn chosen_has_code()
    ensures { ChosenHasCode }
{}
