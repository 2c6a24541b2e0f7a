// The machine and its public calls.
ghost use Rattle.std.specs.Prelude.{◌≡◌, ◌<◌, ◌≤◌, ◌^◌, length, IfOk};

use crate::blocks::Blocks;
use crate::registers::Registers;
use rv_core::{Costs, Image, Instr};
use std::alloc::Global;
use std::marker::Model;
use wcc_base::Memory;

/// A machine that runs an image on an input, and counts its cycles.
#[derive(Drop)]
pub struct Machine {
    pub(crate) pc: u32,
    pub(crate) registers: Registers,
    pub(crate) memory: Blocks,
    pub(crate) input: Vec<u8>,
    /// How many bytes of the input were taken.
    pub(crate) taken: usize,
    pub(crate) output: Vec<u8>,
    /// How many bytes may be written.
    pub(crate) room: u32,
    pub(crate) costs: Costs,
    pub(crate) cycles: u64,
    /// The instruction of the last step.
    pub(crate) last: Option<Instr>,
    /// The value of an exit.
    pub(crate) exit: Option<i32>,
}

impl Model for Machine {
    ghost use Rattle.std.specs.Prelude.{◌≤◌, ◌<◌, ◌^◌, length, drop};
    ghost use Rattle.std.specs.Vec.{vec_capacity};
    ghost use Rattle.rv_core.specs.Table.{table_of};
    ghost use Rattle.rv_sim.specs.Simulation.{Simulation};
    ghost use Rattle.rv_sim.specs.Parts.{ending_by};

    ghost Value = { Simulation };

    ghost view = { λ m. record {
      state = record {
        pc = m.pc;
        registers = m.registers;
        world = record { memory = m.memory; input = drop m.taken m.input.items; output = m.output.items };
        last = m.last;
        cycles = m.cycles;
        ending = ending_by m.exit;
      };
      costs = table_of m.costs;
      room = m.room;
    } };

    ghost invariant = { λ m. (length m.output.items ≤ m.room) × (m.room ≤ vec_capacity m.output) × (m.cycles < 2 ^ 63) };
}

impl Machine {
    ghost use Rattle.rv_core.specs.Table.{table_of};
    ghost use Rattle.rv_core.specs.Runs.{setup};
    ghost use Rattle.rv_sim.specs.Simulation.{started, IsAt};

    /// The loaded machine, before its first step. All memory that a run needs is taken here.
    pub fn new(
        alloc: Global,
        image: &Image,
        costs: Costs,
        input: Vec<u8>,
        out_limit: u32,
    ) -> Result<Machine, Memory>
        ensures started { IfOk result (λ m. m ≡ started image.now input.items (table_of costs) out_limit) }
        ensures first { IfOk result (λ m. IsAt m (setup image.now (table_of costs) input.items) 0) }
    {
        let memory = Blocks::load(alloc, image.segments())?;
        let output = Vec::with_capacity(alloc, out_limit as usize)?;
        Ok(Machine {
            pc: image.entry(),
            registers: Registers::new(),
            memory,
            input,
            taken: 0,
            output,
            room: out_limit,
            costs,
            cycles: 0,
            last: None,
            exit: None,
        })
    }

    /// The address of the next instruction.
    pub fn pc(&self) -> u32
        ensures { result ≡ self.now.state.pc }
    {
        self.pc
    }

    /// The cycles so far.
    pub fn cycles(&self) -> u64
        ensures value { result ≡ self.now.state.cycles }
        ensures small { result < 2 ^ 63 }
    {
        self.cycles
    }

    /// The bytes that were written.
    pub fn output(&self) -> &[u8]
        ensures value { result.now ≡ self.now.state.world.output }
        ensures few { length result.now ≤ self.now.room }
    {
        self.output.as_slice()
    }

    /// Gives away the bytes that were written. It takes no memory.
    pub fn into_output(self) -> Vec<u8>
        ensures { result.items ≡ self.state.world.output }
    {
        self.output
    }
}
