// Whether responses are right.
ghost use Rattle.std.specs.Prelude.{◌↔◌, ◌<◌, length, IsTrue};
ghost use Rattle.response_analysis.specs.Tasks.{AreTasks};
ghost use Rattle.response_analysis.specs.Equation.{IsResponse, AreResponses};
ghost use Rattle.response_analysis.specs.Ends.{EndInTime};

use crate::Task;
use crate::equation::workload;

fn is_response(tasks: &[Task], i: usize, response: u64) -> bool
    requires tasks { AreTasks tasks.now }
    requires there { i < length tasks.now }
    ensures { IsTrue result ↔ IsResponse tasks.now i response }
{
    let period = tasks[i].period;
    if response > period {
        return false;
    }
    workload(tasks, i, response) == u128::from(response)
}

fn are_responses(tasks: &[Task], responses: &[u64]) -> bool
    requires { AreTasks tasks.now }
    ensures { IsTrue result ↔ AreResponses tasks.now responses.now }
{
    if responses.len() != tasks.len() {
        return false;
    }
    for i in 0..tasks.len() {
        if !is_response(tasks, i, responses[i]) {
            return false;
        }
    }
    true
}

/// Whether each task has one of these responses: at most its period, and a solution of its
/// equation. It takes no memory.
pub fn fixed(tasks: &[Task], responses: &[u64]) -> bool
    requires { AreTasks tasks.now }
    ensures value { IsTrue result ↔ AreResponses tasks.now responses.now }
    ensures ends { IsTrue result → EndInTime tasks.now responses.now }
{
    are_responses(tasks, responses)
}
