// What instructions do to the machine.
ghost use Rattle.std.specs.Prelude.{◌≡◌, ◌*◌, ◌^◌, ◌<◌, Some, None, false};
ghost use Rattle.rv_core.specs.Arithmetic.{byte_count};
ghost use Rattle.rv_core.specs.Memory.{written_to};
ghost use Rattle.rv_core.specs.Machine.{sets, jumps, branches, reads, reads_at, writes, writes_at, done, address_of, access_of, is_taken, register_of};

use crate::blocks::{Found, Place};
use crate::ending::Ending;
use crate::issue::Issue;
use crate::machine::Machine;
use rv_core::Width;

impl Machine {
    ghost use Rattle.rv_sim.specs.Simulation.{answer_to};
    ghost use Rattle.rv_sim.specs.Lookups.{IsPlace};
    ghost use Rattle.rv_sim.specs.Limits.{Issues, Limited, IsPrice};

    /// Goes on to the next instruction with this value in rd.
    pub fn go_on(&mut self, issue: &Issue, value: u32) -> Option<Ending>
        requires issues { Issues self.old issue.now }
        requires price { IsPrice issue.now.instr self.old.state None false }
        ensures answer { Limited issue.now.limit (answer_to (done self.old.costs issue.now.instr self.old.state (sets issue.now.instr.rd value self.old.state)) self.old) self.old self.new result }
        ensures pays { result ≡ None → self.old.state.cycles < self.new.state.cycles }
    {
        if !self.pay(issue, None, false) {
            return Some(Ending::CycleLimit);
        }
        self.registers.set(issue.instr.rd(), value);
        self.pc = self.pc.wrapping_add(4);
        None
    }

    /// Jumps to an address, with that of the next instruction in rd.
    pub fn jump(&mut self, issue: &Issue, to: u32) -> Option<Ending>
        requires issues { Issues self.old issue.now }
        requires price { IsPrice issue.now.instr self.old.state None false }
        ensures answer { Limited issue.now.limit (answer_to (done self.old.costs issue.now.instr self.old.state (jumps issue.now.instr.rd to self.old.state)) self.old) self.old self.new result }
        ensures pays { result ≡ None → self.old.state.cycles < self.new.state.cycles }
    {
        if !self.pay(issue, None, false) {
            return Some(Ending::CycleLimit);
        }
        self.registers
            .set(issue.instr.rd(), self.pc.wrapping_add(4));
        self.pc = to;
        None
    }

    /// Jumps by the immediate where the branch is taken.
    pub fn branch(&mut self, issue: &Issue, taken: bool) -> Option<Ending>
        requires issues { Issues self.old issue.now }
        requires price { IsPrice issue.now.instr self.old.state None taken }
        ensures answer { Limited issue.now.limit (answer_to (done self.old.costs issue.now.instr self.old.state (branches issue.now.instr.imm taken self.old.state)) self.old) self.old self.new result }
        ensures pays { result ≡ None → self.old.state.cycles < self.new.state.cycles }
    {
        if !self.pay(issue, None, taken) {
            return Some(Ending::CycleLimit);
        }
        let distance = if taken {
            issue.instr.imm().cast_unsigned()
        } else {
            4
        };
        self.pc = self.pc.wrapping_add(distance);
        None
    }

    /// The trap of this kind at the pc.
    pub fn trap(&self, kind: u8) -> Ending
        ensures { result ≡ Ending.Trap self.now.state.pc kind }
    {
        Ending::Trap { pc: self.pc, kind }
    }

    /// The address that rs1 and the immediate give.
    fn address(&self, issue: &Issue) -> u32
        ensures { result ≡ address_of issue.now.instr self.now.state }
    {
        let base = self.registers.get(issue.instr.rs1());
        base.wrapping_add(issue.instr.imm().cast_unsigned())
    }

    /// Goes on to the next instruction with what was found in a region, extended, in rd.
    fn finish_load(&mut self, issue: &Issue, kind: (Width, bool), found: &Found) -> Option<Ending>
        requires issues { Issues self.old issue.now }
        requires price { IsPrice issue.now.instr self.old.state (Some found.now.region) false }
        requires small { found.now.number < 2 ^ (8 * byte_count kind.0) }
        ensures answer { Limited issue.now.limit (answer_to (done self.old.costs issue.now.instr self.old.state (reads issue.now.instr.rd kind (Some found.now.number) self.old.state)) self.old) self.old self.new result }
        ensures pays { result ≡ None → self.old.state.cycles < self.new.state.cycles }
    {
        if !self.pay(issue, Some(found.region), false) {
            return Some(Ending::CycleLimit);
        }
        let value = kind.0.extended(kind.1, found.number);
        self.registers.set(issue.instr.rd(), value);
        self.pc = self.pc.wrapping_add(4);
        None
    }

    /// Loads what stands at rs1 plus the immediate.
    pub fn load(&mut self, issue: &Issue, kind: (Width, bool)) -> Option<Ending>
        requires issues { Issues self.old issue.now }
        requires access { access_of issue.now.instr self.old.state ≡ Some (address_of issue.now.instr self.old.state) }
        requires not_taken { is_taken issue.now.instr self.old.state ≡ false }
        ensures answer { Limited issue.now.limit (answer_to (done self.old.costs issue.now.instr self.old.state (reads_at issue.now.instr.rd kind (address_of issue.now.instr self.old.state) self.old.state)) self.old) self.old self.new result }
        ensures pays { result ≡ None → self.old.state.cycles < self.new.state.cycles }
    {
        let at = self.address(issue);
        if at % kind.0.byte_count() != 0 {
            return Some(self.trap(5));
        }
        match self.memory.read(kind.0, at) {
            None => Some(self.trap(3)),
            Some(found) => self.finish_load(issue, kind, &found),
        }
    }

    /// Goes on to the next instruction with a word stored.
    fn finish_store(
        &mut self,
        issue: &Issue,
        width: Width,
        at: u32,
        place: &Place,
    ) -> Option<Ending>
        requires issues { Issues self.old issue.now }
        requires price { IsPrice issue.now.instr self.old.state (Some place.now.region) false }
        requires place { IsPlace width at self.old.state.world.memory place.now }
        ensures answer { Limited issue.now.limit (answer_to (done self.old.costs issue.now.instr self.old.state (writes (written_to width self.old.state.world.memory at (register_of self.old.state.registers issue.now.instr.rs2)) self.old.state)) self.old) self.old self.new result }
        ensures pays { result ≡ None → self.old.state.cycles < self.new.state.cycles }
    {
        if !self.pay(issue, Some(place.region), false) {
            return Some(Ending::CycleLimit);
        }
        let word = self.registers.get(issue.instr.rs2());
        self.memory.put(place, width, at, word);
        self.pc = self.pc.wrapping_add(4);
        None
    }

    /// Stores rs2 to rs1 plus the immediate.
    pub fn store(&mut self, issue: &Issue, width: Width) -> Option<Ending>
        requires issues { Issues self.old issue.now }
        requires access { access_of issue.now.instr self.old.state ≡ Some (address_of issue.now.instr self.old.state) }
        requires not_taken { is_taken issue.now.instr self.old.state ≡ false }
        ensures answer { Limited issue.now.limit (answer_to (done self.old.costs issue.now.instr self.old.state (writes_at width (register_of self.old.state.registers issue.now.instr.rs2) (address_of issue.now.instr self.old.state) self.old.state)) self.old) self.old self.new result }
        ensures pays { result ≡ None → self.old.state.cycles < self.new.state.cycles }
    {
        let at = self.address(issue);
        if at % width.byte_count() != 0 {
            return Some(self.trap(5));
        }
        match self.memory.place(width, at) {
            None => Some(self.trap(4)),
            Some(place) => self.finish_store(issue, width, at, &place),
        }
    }
}
