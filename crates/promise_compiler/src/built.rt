// What a source is compiled with, and to what.
ghost use Rattle.std.specs.Prelude.{◌≤◌};

use report_text::Report;
use rv_core::{Costs, Image};

/// What a source is compiled with.
#[derive(Clone, Copy)]
pub struct Options {
    pub costs: Costs,
    /// Whether bounds of counting loops are derived.
    pub derive: bool,
    /// How many bytes of the scratchpad may be used.
    pub spm: u32,
    /// How many statements and expressions a function has at most that is put into the place of its calls.
    pub inline: u32,
    /// How many starts of an innermost loop become one.
    pub unroll: u32,
    pub ghost room: { spm ≤ 65536 },
    pub ghost least: { 1 ≤ unroll },
    pub ghost most: { unroll ≤ 64 },
}

/// What a source is compiled to.
#[derive(Drop)]
pub struct Built {
    pub image: Image,
    pub report: Report,
}
