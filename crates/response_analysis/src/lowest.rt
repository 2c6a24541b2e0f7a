// How far a response lies above a number of cycles at least. Some of the tasks count by what they ask
// for within that number, as in the equation itself, and those before them by their shares of the
// processor: so a long response comes near in few steps, where shares leave little of the processor.
ghost use Rattle.std.specs.Prelude.{◌≡◌, ◌+◌, ◌*◌, ◌<◌, ◌≤◌, ◌^◌, ℕ, length};
ghost use Rattle.response_analysis.specs.Tasks.{IsTask, AreTasks};
ghost use Rattle.response_analysis.specs.Equation.{workload};

use crate::Task;
use crate::equation::asked;

// Shares are told in 2^64ths.
const WHOLE: u128 = 1 << 64;

// What a task takes of the processor at least, whenever it is released as often as it may.
fn share(task: Task) -> u128
    requires { IsTask task }
    ensures value { result * task.period ≤ task.cycles * 2 ^ 64 }
    ensures small { result ≤ 2 ^ 127 }
{
    u128::from(task.cycles) * WHOLE / u128::from(task.period)
}

// As many shares, or all that there are.
fn at_most_whole(shares: u128) -> u128
    ensures fewer { result ≤ shares }
    ensures most { result ≤ 2 ^ 64 }
{
    if shares < WHOLE {
        return shares;
    }
    WHOLE
}

fn greater(first: u128, second: u128) -> u128
    ensures first { first ≤ result }
    ensures least { (most : ℕ) → first ≤ most → second ≤ most → result ≤ most }
{
    if first < second {
        return second;
    }
    first
}

// The least number that holds so many cycles, and shares of itself.
fn least_with(cycles: u128, shares: u128) -> u128
    requires { cycles ≤ 10 ^ 12 }
    ensures { (other : ℕ) → cycles * 2 ^ 64 + other * shares ≤ other * 2 ^ 64 → result ≤ other }
{
    if shares < WHOLE {
        return (cycles * WHOLE).div_ceil(WHOLE - shares);
    }
    if cycles == 0 {
        return 0;
    }
    u128::MAX
}

/// No solution of the task's equation of at least so many cycles, of which this is the workload, is
/// below the answer, which is at least that workload.
pub fn rise(tasks: &[Task], i: usize, within: u64, load: u128) -> u128
    requires tasks { AreTasks tasks.now }
    requires there { i < length tasks.now }
    requires within { within ≤ 10 ^ 12 }
    requires load { load ≡ workload tasks.now i within }
    requires short { load ≤ 10 ^ 12 }
    ensures more { load ≤ result }
    ensures low { (other : ℕ) → other ≡ workload tasks.now i other → within ≤ other → result ≤ other }
{
    let mut best = load;
    let mut rest = load;
    let mut shares: u128 = 0;
    for k in 0..i {
        let asks = asked(tasks[k], within);
        rest -= asks;
        shares = at_most_whole(shares + share(tasks[k]));
        best = greater(best, least_with(rest, shares));
    }
    best
}
