// What a task and those before it ask for within so many cycles.
ghost use Rattle.std.specs.Prelude.{◌≡◌, ◌*◌, ◌<◌, ◌≤◌, ◌^◌, length};
ghost use Rattle.std.specs.Int.{div_ceil};
ghost use Rattle.response_analysis.specs.Tasks.{IsTask, AreTasks};
ghost use Rattle.response_analysis.specs.Equation.{interference, workload};

use crate::Task;

/// The cycles that the jobs of one task ask for within so many.
pub fn asked(task: Task, within: u64) -> u128
    requires task { IsTask task }
    requires within { within ≤ 10 ^ 12 }
    ensures value { result ≡ div_ceil within task.period * task.cycles }
    ensures small { result < 2 ^ 103 }
{
    u128::from(within.div_ceil(task.period)) * u128::from(task.cycles)
}

// The cycles that the first tasks ask for within so many.
fn interference(tasks: &[Task], within: u64, count: usize) -> u128
    requires tasks { AreTasks tasks.now }
    requires within { within ≤ 10 ^ 12 }
    requires count { count ≤ length tasks.now }
    ensures value { result ≡ interference tasks.now within count }
    ensures small { result ≤ count * 2 ^ 103 }
{
    let mut sum: u128 = 0;
    for i in 0..count {
        let more = asked(tasks[i], within);
        sum += more;
    }
    sum
}

/// The cycles of a task, and those that the tasks before it ask for.
pub fn workload(tasks: &[Task], i: usize, within: u64) -> u128
    requires tasks { AreTasks tasks.now }
    requires there { i < length tasks.now }
    requires within { within ≤ 10 ^ 12 }
    ensures { result ≡ workload tasks.now i within }
{
    u128::from(tasks[i].cycles) + interference(tasks, within, i)
}
