// The least responses.
ghost use Rattle.std.specs.Prelude.{◌≡◌, ◌<◌, ◌++◌, ◌∷◌, [], length, IfOk, IfErr, OnOk, MatchOption};
ghost use Rattle.response_analysis.specs.Tasks.{AreTasks};
ghost use Rattle.response_analysis.specs.Equation.{IsLate, IsLeastResponse, AreResponses, AreLeastResponses};
ghost use Rattle.response_analysis.specs.Ends.{EndInTime, AreReached};
ghost use Rattle.response_analysis.specs.Faults.{IsCause};

use crate::equation::workload;
use crate::lowest::rise;
use crate::{Task, TaskFault};
use std::alloc::{AllocError, Global};

// The least response of a task, if it is at most the period: it is risen to from below.
fn response(tasks: &[Task], i: usize) -> Option<u64>
    requires tasks { AreTasks tasks.now }
    requires there { i < length tasks.now }
    ensures { MatchOption result (IsLate tasks.now i) (IsLeastResponse tasks.now i) }
{
    let period = u128::from(tasks[i].period);
    let mut within: u64 = 0;
    'rising: loop {
        let load = workload(tasks, i, within);
        if load > period {
            return None;
        }
        if load == u128::from(within) {
            return Some(within);
        }
        let next = rise(tasks, i, within, load);
        if next > period {
            return None;
        }
        within = next as u64;
    }
}

fn keep(found: &mut Vec<u64>, least: u64) -> Result<(), AllocError>
    ensures { OnOk result (found.new.items ≡ found.old.items ++ least ∷ []) }
{
    found.push(least)?;
    Ok(())
}

/// The least response of each task, in their order, or the first task that has none of at most its
/// period.
pub fn responses(alloc: Global, tasks: &[Task]) -> Result<Vec<u64>, TaskFault>
    requires { AreTasks tasks.now }
    ensures least { IfOk result (λ found. AreLeastResponses tasks.now found.items) }
    ensures fixed { IfOk result (λ found. AreResponses tasks.now found.items) }
    ensures ends { IfOk result (λ found. EndInTime tasks.now found.items) }
    ensures reached { IfOk result (λ found. AreReached tasks.now found.items) }
    ensures err { IfErr result (λ fault. IsCause tasks.now fault) }
{
    let mut found = Vec::new(alloc);
    for i in 0..tasks.len() {
        match response(tasks, i) {
            Some(least) => match keep(&mut found, least) {
                Ok(()) => {}
                Err(_) => return Err(TaskFault::Memory),
            },
            None => return Err(TaskFault::Late { task: i as u32 }),
        }
    }
    Ok(found)
}
