// One step, and a run.
ghost use Rattle.std.specs.Prelude.{◌≡◌, ℕ, ◌+◌, ◌≤◌, ◌<◌, ◌^◌, length, None};
ghost use Rattle.rv_core.specs.Machine.{performed, done};
ghost use Rattle.rv_core.specs.Runs.{Setup};
ghost use Rattle.rv_core.specs.Exits.{Finish, limits, ExitsWithin};

use crate::ending::Ending;
use crate::issue::Issue;
use crate::machine::Machine;
use rv_core::Effect;

impl Machine {
    ghost use Rattle.rv_sim.specs.Simulation.{answer_to, answer_of, Stepped, RunsWithin, HasExited, IsAt, Follows};
    ghost use Rattle.rv_sim.specs.Limits.{Issues, Limited, HasRoom};

    /// Executes an instruction.
    fn perform(&mut self, issue: &Issue) -> Option<Ending>
        requires { Issues self.old issue.now }
        ensures answer { Limited issue.now.limit (answer_to (done self.old.costs issue.now.instr self.old.state (performed issue.now.instr self.old.state)) self.old) self.old self.new result }
        ensures pays { result ≡ None → self.old.state.cycles < self.new.state.cycles }
    {
        let instr = &issue.instr;
        let imm = instr.imm().cast_unsigned();
        let x = self.registers.get(instr.rs1());
        let y = self.registers.get(instr.rs2());
        match instr.op().row().effect {
            Effect::SetUpper => self.go_on(issue, imm),
            Effect::AddUpper => self.go_on(issue, self.pc.wrapping_add(imm)),
            Effect::Link => self.jump(issue, self.pc.wrapping_add(imm)),
            Effect::LinkRegister => self.jump(issue, x.wrapping_add(imm) / 2 * 2),
            Effect::BranchIf(condition) => self.branch(issue, condition.holds(x, y)),
            Effect::Read { width, signed } => self.load(issue, (width, signed)),
            Effect::Write(width) => self.store(issue, width),
            Effect::WithImmediate(function) => self.go_on(issue, function.value(x, imm)),
            Effect::WithRegister(function) => self.go_on(issue, function.value(x, y)),
            Effect::CallEnvironment => self.call(issue),
        }
    }

    // No more is written than there is room for.
    fn keeps_room(&self)
        ensures { length self.now.state.world.output ≤ self.now.room }
    {
        let _ = &self.room;
    }

    /// One step, which isn't taken where it would pass the limit.
    #[tactic(auto, unfolding(rv_core::specs::Machine::step))]
    fn step_within(&mut self, limit: Option<u64>) -> Option<Ending>
        requires { HasRoom limit self.old.state.cycles }
        ensures answer { Limited limit (answer_of self.old) self.old self.new result }
        ensures pays { result ≡ None → self.old.state.cycles < self.new.state.cycles }
    {
        if let Some(value) = self.exit {
            return Some(Ending::Exit { value });
        }
        let Some(fetched) = self.memory.fetch(self.pc) else {
            return Some(self.trap(1));
        };
        let Some(instr) = fetched.instr else {
            return Some(self.trap(2));
        };
        let fetch = fetched.region;
        self.perform(&Issue {
            instr,
            fetch,
            limit,
        })
    }

    /// One step. `None` after an ordinary step; the first exit is a step too. A trap and a full
    /// output change nothing and are answered again, and so is an exit.
    pub fn step(&mut self) -> Option<Ending>
        requires { self.old.state.cycles ≤ 2 ^ 62 }
        ensures answer { Stepped (answer_of self.old) self.old self.new result }
        ensures follows { (s : Setup) (n : ℕ) → IsAt self.old s n → Follows (answer_of self.old) self.new s n }
    {
        self.step_within(None)
    }

    /// Steps until an ending. `CycleLimit` comes where the next step would pass the limit in all,
    /// and that step isn't taken.
    pub fn run(&mut self, limit: u64) -> Ending
        requires { limit ≤ 2 ^ 62 }
        ensures runs { RunsWithin limit self.old self.new result }
        ensures follows { (s : Setup) (n : ℕ) → IsAt self.old s n → (k : ℕ) × IsAt self.new s (n + k) }
        ensures exits { (s : Setup) (n : ℕ) → IsAt self.old s n → self.old.state.cycles ≤ limit → (f : Finish) → HasExited self.new result f → ExitsWithin s (limits limit self.old.room) f }
        ensures finishes { (s : Setup) (n : ℕ) → IsAt self.old s n → (f : Finish) → ExitsWithin s (limits limit self.old.room) f → HasExited self.new result f }
    {
        loop {
            if let Some(ending) = self.step_within(Some(limit)) {
                self.keeps_room();
                return ending;
            }
        }
    }
}
