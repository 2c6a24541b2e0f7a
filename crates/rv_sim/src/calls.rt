// Calls of the environment.
ghost use Rattle.std.specs.Prelude.{◌≡◌, ◌<◌, drop, None, false};
ghost use Rattle.rv_core.specs.Machine.{input_value, calls, done, register_of};

use crate::ending::Ending;
use crate::issue::Issue;
use crate::machine::Machine;
use wcc_base::sign_extend;

impl Machine {
    ghost use Rattle.rv_sim.specs.Simulation.{answer_to, with_state};
    ghost use Rattle.rv_sim.specs.Limits.{Issues, Limited, IsPrice};

    /// Exits with x10.
    fn exit(&mut self, issue: &Issue) -> Option<Ending>
        requires issues { Issues self.old issue.now }
        requires price { IsPrice issue.now.instr self.old.state None false }
        ensures answer { Limited issue.now.limit (answer_to (done self.old.costs issue.now.instr self.old.state (calls 0 self.old.state)) self.old) self.old self.new result }
        ensures pays { result ≡ None → self.old.state.cycles < self.new.state.cycles }
    {
        if !self.pay(issue, None, false) {
            return Some(Ending::CycleLimit);
        }
        let value = sign_extend(self.registers.get(10), 32);
        self.exit = Some(value);
        Some(Ending::Exit { value })
    }

    /// Takes the next byte of the input; -1 where none is left.
    fn take_input(&mut self) -> u32
        ensures value { result ≡ input_value self.old.state.world.input }
        ensures rest { self.new ≡ with_state self.old (record self.old.state { world = record self.old.state.world { input = drop 1 self.old.state.world.input } }) }
    {
        match self.input.get(self.taken) {
            Some(byte) => {
                let value = u32::from(*byte);
                self.taken += 1;
                value
            }
            None => u32::MAX,
        }
    }

    /// Puts the next byte of the input, or -1, into x10.
    fn read_byte(&mut self, issue: &Issue) -> Option<Ending>
        requires issues { Issues self.old issue.now }
        requires price { IsPrice issue.now.instr self.old.state None false }
        ensures answer { Limited issue.now.limit (answer_to (done self.old.costs issue.now.instr self.old.state (calls 1 self.old.state)) self.old) self.old self.new result }
        ensures pays { result ≡ None → self.old.state.cycles < self.new.state.cycles }
    {
        if !self.pay(issue, None, false) {
            return Some(Ending::CycleLimit);
        }
        let value = self.take_input();
        self.registers.set(10, value);
        self.pc = self.pc.wrapping_add(4);
        None
    }

    /// Writes the low byte of x10, and leaves it in x10.
    fn write_byte(&mut self, issue: &Issue) -> Option<Ending>
        requires issues { Issues self.old issue.now }
        requires price { IsPrice issue.now.instr self.old.state None false }
        ensures answer { Limited issue.now.limit (answer_to (done self.old.costs issue.now.instr self.old.state (calls 2 self.old.state)) self.old) self.old self.new result }
        ensures pays { result ≡ None → self.old.state.cycles < self.new.state.cycles }
    {
        if self.output.len() >= self.room as usize {
            return Some(Ending::OutputFull);
        }
        if !self.pay(issue, None, false) {
            return Some(Ending::CycleLimit);
        }
        let byte = self.registers.get(10) % 0x100;
        self.registers.set(10, byte);
        let _ = self.output.push(byte as u8);
        self.pc = self.pc.wrapping_add(4);
        None
    }

    /// The call of the environment that x17 names.
    pub fn call(&mut self, issue: &Issue) -> Option<Ending>
        requires issues { Issues self.old issue.now }
        requires price { IsPrice issue.now.instr self.old.state None false }
        ensures answer { Limited issue.now.limit (answer_to (done self.old.costs issue.now.instr self.old.state (calls (register_of self.old.state.registers 17) self.old.state)) self.old) self.old self.new result }
        ensures pays { result ≡ None → self.old.state.cycles < self.new.state.cycles }
    {
        match self.registers.get(17) {
            0 => self.exit(issue),
            1 => self.read_byte(issue),
            2 => self.write_byte(issue),
            _ => Some(self.trap(6)),
        }
    }
}
