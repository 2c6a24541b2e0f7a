// The cycles of an instruction.
ghost use Rattle.std.specs.Prelude.{◌≡◌, ◌≤◌, ◌<◌, length, true};
ghost use Rattle.rv_core.specs.Machine.{wait_behind};

use crate::issue::Issue;
use crate::machine::Machine;
use rv_core::{Instr, Region, cost, wait};

impl Machine {
    ghost use Rattle.rv_sim.specs.Limits.{Issues, IsPrice, Pays};

    /// How long an instruction waits for the last one.
    fn waited(&self, instr: &Instr) -> u32
        ensures value { result ≡ wait_behind self.now.costs self.now.state.last instr.now }
        ensures small { result < 1001 }
    {
        match &self.last {
            None => 0,
            Some(before) => wait(&self.costs, before, instr),
        }
    }

    /// Pays for an instruction, which is the last one then; not where its cycles would pass the
    /// limit. All cycles of a run are paid here.
    pub fn pay(&mut self, issue: &Issue, access: Option<Region>, taken: bool) -> bool
        requires issues { Issues self.old issue.now }
        requires price { IsPrice issue.now.instr self.old.state access taken }
        ensures paid { Pays issue.now.limit issue.now.instr self.old self.new result }
        ensures more { result ≡ true → self.old.state.cycles < self.new.state.cycles }
        ensures room { length self.old.state.world.output ≤ self.old.room }
    {
        let instr = &issue.instr;
        let cost = cost(&self.costs, instr, issue.fetch, access, taken);
        let cycles = self.cycles + u64::from(cost) + u64::from(self.waited(instr));
        match issue.limit {
            Some(limit) if limit < cycles => false,
            _ => {
                self.cycles = cycles;
                self.last = Some(*instr);
                true
            }
        }
    }
}
