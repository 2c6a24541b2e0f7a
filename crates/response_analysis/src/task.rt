// Tasks, and which of them have responses.
ghost use Rattle.std.specs.Prelude.{◌↔◌, IsTrue};
ghost use Rattle.response_analysis.specs.Tasks.{IsTask, AreTasks};

// As many tasks as share the processor at most.
const TASKS: usize = 64;

// The longest period.
const PERIOD: u64 = 1_000_000_000_000;

// No job needs so many cycles.
const CYCLES: u64 = 1 << 63;

/// A task: what each of its jobs needs at most, and the cycles from one release to the next at
/// least.
#[derive(Clone, Copy)]
pub struct Task {
    pub cycles: u64,
    pub period: u64,
}

fn is_task(task: Task) -> bool
    ensures { IsTrue result ↔ IsTask task }
{
    0 < task.period && task.period <= PERIOD && task.cycles < CYCLES
}

/// Whether responses are asked of these tasks: at most 64, each with a period of 1 to 10^12 and less
/// than 2^63 cycles.
pub fn are_tasks(tasks: &[Task]) -> bool
    ensures { IsTrue result ↔ AreTasks tasks.now }
{
    if tasks.len() > TASKS {
        return false;
    }
    for i in 0..tasks.len() {
        if !is_task(tasks[i]) {
            return false;
        }
    }
    true
}
