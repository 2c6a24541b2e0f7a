//! Steps of runs, in the form in which a layout follows them.
//!
//! Proved, each by a call with an empty body: [`steps_go`] and [`steps_leave`], what a step makes of a run
//! whose pc stands at an instruction of the image: pc, registers, memory, visits and return places; and
//! [`registers_keep`], what a written register and the others hold. `proofs/LaterLemmas.antt` joins steps.
//!
//! The crate knows no items and no compiler.
#![tactic(auto)]

ghost use Rattle.rv_steps.specs.Steps.{StepsGo, StepsLeave, WritesOne, KeepsOthers, KeepsCount};

use rv_core::Image;

/// A step whose instruction goes to an address, with some registers and memory, makes the run go there.
pub fn steps_go(image: &Image)
    ensures { StepsGo image.now }
{
    let _ = &image.segments();
}

/// A step whose instruction exits ends the run.
pub fn steps_leave(image: &Image)
    ensures { StepsLeave image.now }
{
    let _ = &image.segments();
}

/// A register that was written holds what was written, and each other one what it held.
pub fn registers_keep()
    ensures written { WritesOne }
    ensures others { KeepsOthers }
    ensures count { KeepsCount }
{}
