// The command `respond TASKS [--table FILE]`: the files of one task after the other are read, checked
// and let go.
ghost use Rattle.std.specs.Prelude.{◌≡◌, ◌⊎◌, ◌+◌, ◌≤◌, ◌∷◌, [], true, length, All, IfOk, MatchResult};
ghost use Rattle.wcc_base.specs.declared.status.Status.TheVariants as status;
ghost use Rattle.rv_core.specs.Table.{table_of};
ghost use Rattle.response_analysis.specs.Tasks.{AreTasks};
ghost use Rattle.response_time.specs.Entries.{IsEntry, is_file};
ghost use Rattle.response_time.specs.Lists.{IsList};
ghost use Rattle.command_words.specs.Held.{respond_request, table_name};
ghost use Rattle.command_perform.specs.Words.{Respond};
ghost use Rattle.command_perform.specs.Gathering.{Gathered, NotGathered, OnlyRead};
ghost use Rattle.command_perform.specs.Tables.{wanted_table};
ghost use Rattle.command_perform.specs.Ends.{IsEnd, IsRefusal, MakesIn, Fails};
ghost use Rattle.command_perform.specs.Responding.{wanted_task, list_status, RefusesText, RefusesList, AreListed, IsTaskOf, AreTasksOf, response_lines, response_outputs, late_outputs, MakesAnswer, MakesOf, MakesListed};
ghost use Rattle.command_perform.specs.Tasks.{FailsTask, FailsFirst, FailsListed};
ghost use Rattle.command_perform.specs.Outputs.{outputs_of};

use crate::check::check_files;
use crate::contents::two;
use crate::gather::{read_charged, read_each, want};
use crate::lines::{late_line, response_line};
use crate::make::Made;
use crate::printing::text_of;
use crate::tables::charged_one;
use command_words::RespondRequest;
use response_time::{Entry, ListFault, Task, TaskFault, read_tasks, responses};
use rv_core::Costs;
use std::alloc::Global;
use std::str::from_utf8;
use wcc_base::{Bound, Items, Memory, Status, Store, Text};

// The code of a refusal of a list of tasks.
const NO_TASKS: u8 = 12;

// The kind of a stop at a task that is late.
const LATE: u8 = 7;

// The status of a list that is refused.
fn list_status(fault: ListFault) -> Status
    ensures { result ≡ list_status fault }
{
    let (detail, at) = match fault {
        ListFault::Line { number } => (1, number),
        ListFault::Number { line } => (2, line),
        ListFault::Memory => return Status::Memory,
    };
    Status::Refused {
        code: NO_TASKS,
        detail,
        at,
    }
}

// The tasks of a list.
#[tactic(auto, using(crate::proofs::TaskRuns::refuses_text))]
fn entries_of(alloc: Global, list: &[u8]) -> Result<Vec<Entry>, Status>
    ensures { MatchResult result (λ es. IsList list.now es.items)
        (λ s. (s ≡ status.Memory) ⊎ (IsRefusal s × RefusesText list.now s)) }
{
    match read_tasks(alloc, list) {
        Ok(entries) => Ok(entries),
        Err(fault) => Err(list_status(fault)),
    }
}

// The tasks of a list, and the costs: those of the table behind it where one is named.
fn listed(
    alloc: Global,
    table: Option<&str>,
    contents: Vec<Items<u8>>,
) -> Result<(Vec<Entry>, Costs), Status>
    requires { length contents.items ≡ 1 + length (wanted_table (table_name table)) }
    ensures { MatchResult result (λ r. AreListed contents.items (table_of r.1) r.0.items)
        (λ s. (s ≡ status.Memory) ⊎ (IsRefusal s × RefusesList contents.items s)) }
{
    match charged_one(alloc, table, contents) {
        Ok((list, costs)) => match entries_of(alloc, list.as_slice()) {
            Ok(entries) => Ok((entries, costs)),
            Err(status) => Err(status),
        },
        Err(status) => Err(status),
    }
}

// The name of a file.
fn name_of(text: &Text) -> &str
    requires { is_file text.now ≡ true }
    ensures { result.now ≡ text.now }
{
    match from_utf8(text.as_bytes()) {
        Ok(name) => name,
        Err(_) => "",
    }
}

// Reads the files of a task.
fn read_task<S: Store>(
    alloc: Global,
    store: &mut S,
    entry: &Entry,
) -> Result<(Items<u8>, Items<u8>), Status>
    requires { IsEntry entry.now }
    ensures files { MatchResult result
        (λ r. Gathered (wanted_task entry.now) (S.state store.old).files (r.0 ∷ r.1 ∷ []))
        (λ s. NotGathered (wanted_task entry.now) (S.state store.old).files s) }
    ensures reads { OnlyRead (S.state store.old) (S.state store.new) result }
{
    let image = want(name_of(&entry.image), Bound::Image);
    let report = want(name_of(&entry.report), Bound::Report);
    match read_each(alloc, store, &[image, report]) {
        Ok(contents) => Ok(two(contents)),
        Err(status) => Err(status),
    }
}

// The task whose files are read, if its report holds of its image with these costs.
fn checked_task<S: Store>(
    alloc: Global,
    store: &mut S,
    costs: &Costs,
    entry: &Entry,
) -> Result<Task, Status>
    requires { IsEntry entry.now }
    ensures task { MatchResult result (IsTaskOf (table_of costs.now) (S.state store.old).files entry.now)
        (FailsTask (table_of costs.now) (S.state store.old).files entry.now) }
    ensures reads { OnlyRead (S.state store.old) (S.state store.new) result }
{
    match read_task(alloc, store, entry) {
        Ok((image, report)) => match check_files(
            alloc,
            costs,
            image.as_slice(),
            report.as_slice(),
        ) {
            Ok(checked) => Ok(Task {
                cycles: checked.cycles,
                period: entry.period,
            }),
            Err(status) => Err(status),
        },
        Err(status) => Err(status),
    }
}

// The tasks of a list, if their reports hold. The files of one are let go before the next are read.
fn checked_tasks<S: Store>(
    alloc: Global,
    store: &mut S,
    costs: &Costs,
    entries: &[Entry],
) -> Result<Vec<Task>, Status>
    requires { All IsEntry entries.now }
    ensures tasks { MatchResult result (λ ts. AreTasksOf (table_of costs.now) (S.state store.old).files entries.now ts.items)
        (FailsFirst (table_of costs.now) (S.state store.old).files entries.now) }
    ensures reads { OnlyRead (S.state store.old) (S.state store.new) result }
{
    let mut tasks = Vec::new(alloc);
    'tasks: for entry in entries {
        let task = match checked_task(alloc, store, costs, entry) {
            Ok(task) => task,
            Err(status) => return Err(status),
        };
        match tasks.push(task) {
            Ok(()) => {}
            Err(_) => return Err(Status::Memory),
        }
    }
    Ok(tasks)
}

// The lines of the responses.
fn response_text(alloc: Global, entries: &[Entry], found: &[u64]) -> Result<Vec<u8>, Memory>
    requires { length entries.now ≡ length found.now }
    ensures { IfOk result (λ text. text.items ≡ response_lines entries.now found.now) }
{
    let mut text = Vec::new(alloc);
    for i in 0..entries.len() {
        let line = response_line(entries[i].name.as_bytes(), found[i]);
        let line = text_of(alloc, &line)?;
        text.extend_from_slice(&line)?;
    }
    Ok(text)
}

// What is made where no task is late.
fn in_time<'a>(alloc: Global, entries: &[Entry], found: &[u64]) -> Result<Made<'a>, Memory>
    requires { length entries.now ≡ length found.now }
    ensures { IfOk result (λ m. outputs_of m ≡ response_outputs entries.now found.now) }
{
    let lines = response_text(alloc, entries, found)?;
    Ok(Made {
        status: Status::Done,
        files: Vec::new(alloc),
        lines: Items::new(lines),
    })
}

// What is made where a task is late.
fn late<'a>(alloc: Global, task: u32) -> Result<Made<'a>, Memory>
    requires { task ≤ 64 }
    ensures { IfOk result (λ m. outputs_of m ≡ late_outputs task) }
{
    let number = task + 1;
    let line = late_line(u64::from(number));
    let lines = text_of(alloc, &line)?;
    Ok(Made {
        status: Status::Stopped {
            kind: LATE,
            code: 0,
            at: number,
            cycles: 0,
        },
        files: Vec::new(alloc),
        lines: Items::new(lines),
    })
}

// The responses of the tasks, or the first one that is late.
fn answered<'a>(alloc: Global, entries: &[Entry], tasks: &[Task]) -> Result<Made<'a>, Memory>
    requires tasks { AreTasks tasks.now }
    requires long { length entries.now ≡ length tasks.now }
    ensures { IfOk result (λ m. IsEnd m.status × MakesAnswer entries.now tasks.now (outputs_of m)) }
{
    match responses(alloc, tasks) {
        Ok(found) => in_time(alloc, entries, found.as_slice()),
        Err(TaskFault::Late { task }) => late(alloc, task),
        Err(TaskFault::Memory) => Err(Memory),
    }
}

// Checks tasks, and says how long they take.
fn respond_for<'a, S: Store>(
    alloc: Global,
    store: &mut S,
    costs: &Costs,
    entries: &[Entry],
) -> Result<Made<'a>, Status>
    requires each { All IsEntry entries.now }
    requires few { length entries.now ≤ 64 }
    ensures made { MatchResult result (λ m. IsEnd m.status × MakesOf (table_of costs.now) (S.state store.old).files entries.now (outputs_of m))
        (FailsFirst (table_of costs.now) (S.state store.old).files entries.now) }
    ensures reads { OnlyRead (S.state store.old) (S.state store.new) result }
{
    match checked_tasks(alloc, store, costs, entries) {
        Ok(tasks) => match answered(alloc, entries, tasks.as_slice()) {
            Ok(made) => Ok(made),
            Err(_) => Err(Status::Memory),
        },
        Err(status) => Err(status),
    }
}

// Checks the tasks of a list with the costs of the table behind it, and says how long they take.
fn respond_to<'a, S: Store>(
    alloc: Global,
    store: &mut S,
    table: Option<&str>,
    contents: Vec<Items<u8>>,
) -> Result<Made<'a>, Status>
    requires { length contents.items ≡ 1 + length (wanted_table (table_name table)) }
    ensures made { MatchResult result (λ m. IsEnd m.status × MakesListed contents.items (S.state store.old).files (outputs_of m))
        (FailsListed contents.items (S.state store.old).files) }
    ensures reads { OnlyRead (S.state store.old) (S.state store.new) result }
{
    match listed(alloc, table, contents) {
        Ok((entries, costs)) => respond_for(alloc, store, &costs, entries.as_slice()),
        Err(status) => Err(status),
    }
}

/// Reads a list of tasks, checks them with the costs of the table where one is named, and says how
/// long each takes at most beside the others.
pub fn respond<'a, S: Store>(
    alloc: Global,
    store: &mut S,
    asked: RespondRequest,
) -> Result<Made<'a>, Status>
    ensures made { MatchResult result
        (λ m. IsEnd m.status × MakesIn (Respond (respond_request asked.entry)) (S.state store.old).files (outputs_of m))
        (λ s. Fails (Respond (respond_request asked.entry)) (S.state store.old).files s) }
    ensures reads { OnlyRead (S.state store.old) (S.state store.new) result }
{
    let list = want(asked.tasks, Bound::Tasks);
    match read_charged(alloc, store, list, asked.table) {
        Ok(contents) => respond_to(alloc, store, asked.table, contents),
        Err(status) => Err(status),
    }
}
