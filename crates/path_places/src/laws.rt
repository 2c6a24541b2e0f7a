// What is proved, by calls with empty bodies.
ghost use Rattle.code_flow_system.specs.Systems.{IsSystemOf};
ghost use Rattle.path_places.specs.Reached.{AreReached};
ghost use Rattle.path_places.specs.PlaceLaws.{IsReachedWhole, FunctionsFit};
ghost use Rattle.path_places.specs.RowLaws.{SettlingPaysMoves, SettlingSettlesLoops};
ghost use Rattle.path_places.specs.DualLaws.{WalksAreDual};

use code_flow_system::{LoopShape, Span, System};
use rv_core::Image;

/// A law: where loops fit and every address is reached, each function is steps and loops over places.
pub fn functions_fit(system: &System, shapes: &[LoopShape], spans: &[Span])
    requires { IsReachedWhole system.now shapes.now spans.now }
    ensures { FunctionsFit system.now shapes.now spans.now }
{}

/// A law: each address of an image's system is reached from the entry by its moves.
pub fn systems_are_reached(image: &Image, system: &System)
    requires { IsSystemOf image.now system.now.claims system.now }
    ensures { AreReached system.now }
{}

/// A law: at any prices, when all functions are settled, each move costs no more than the worth falls along it.
pub fn moves_are_paid(system: &System, shapes: &[LoopShape], spans: &[Span])
    requires { IsReachedWhole system.now shapes.now spans.now }
    ensures { SettlingPaysMoves system.now shapes.now spans.now }
{}

/// A law: and each loop is settled, so that its multipliers pay its jump back.
pub fn loops_are_settled(system: &System, shapes: &[LoopShape], spans: &[Span])
    requires { IsReachedWhole system.now shapes.now spans.now }
    ensures { SettlingSettlesLoops system.now shapes.now spans.now }
{}

/// A law: where loops fit and every address is reached, the values of the walks cover each move, at any prices.
pub fn walks_are_dual(system: &System, shapes: &[LoopShape], spans: &[Span])
    requires { IsReachedWhole system.now shapes.now spans.now }
    ensures { WalksAreDual system.now shapes.now spans.now }
{}
