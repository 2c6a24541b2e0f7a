// What is proved, by calls with empty bodies.
ghost use Rattle.loop_flows.specs.FlowLaws.{FlowsConserve, SqueezedIsTight};
ghost use Rattle.loop_flows.specs.PassLaws.{TurningsTurn};
ghost use Rattle.loop_flows.specs.CountLaws.{LoopsKeepBounds};
ghost use Rattle.loop_flows.specs.SlackLaws.{TurnsAreTight};

/// A law: what comes to a place leaves it, and each loop turns as often as it has to.
pub fn flows_conserve()
    ensures { FlowsConserve }
{}

/// A law: each step that is made costs all that the worth falls along it.
pub fn squeezed_is_tight()
    ensures { SqueezedIsTight }
{}

/// A law: along chosen steps each way of a turn goes on to the jump back.
pub fn turnings_turn()
    ensures { TurningsTurn }
{}

/// A law: where what is made is made at places with open weights, loops keep their bounds.
pub fn loops_keep_bounds()
    ensures { LoopsKeepBounds }
{}

/// A law: what is made in the turns of a function costs all that the worths fall.
pub fn turns_are_tight()
    ensures { TurnsAreTight }
{}
