// What is proved, by calls with empty bodies.
ghost use Rattle.compile_capacity.specs.SizeLaws.{LimitedProgramsFit};
ghost use Rattle.compile_capacity.specs.TurnLaws.{AllAreLight, AllTurn, CarriedTurn, LoweredTurn, PlacedTurn, SourcesHaveFewLoops, SourcesTurn};

/// The code and the data of a program that keeps the limits have room, over whatever places with no more slots than registers.
pub fn limited_programs_fit()
    ensures { LimitedProgramsFit }
{}

/// The loops of a source have small numbers.
pub fn sources_have_few_loops()
    ensures { SourcesHaveFewLoops }
{}

/// Each loop of a source has bounds that can be kept.
pub fn sources_turn()
    ensures { SourcesTurn }
{}

/// So does each loop of a program in the high form that carries on such loops.
pub fn carried_turn()
    ensures { CarriedTurn }
{}

/// And of its low program.
pub fn lowered_turn()
    ensures { LoweredTurn }
{}

/// And of that one over the places of an assignment.
pub fn placed_turn()
    ensures { PlacedTurn }
{}

/// From a source with its facts to a low program.
pub fn all_turn()
    ensures { AllTurn }
{}

/// What its facts allow a source to execute leaves room for the numbers of a search.
pub fn all_are_light()
    ensures { AllAreLight }
{}
