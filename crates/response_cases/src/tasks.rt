// Tasks as words, and their responses.
use response_time::{Task, are_tasks, fixed, responses};
use std::alloc::{AllocError, Global};

fn task_of(word: &str) -> Option<Task> {
    let (cycles, period) = word.split_once('/')?;
    match (cycles.parse::<u64>(), period.parse::<u64>()) {
        (Ok(cycles), Ok(period)) => Some(Task { cycles, period }),
        _ => None,
    }
}

fn tasks_of(alloc: Global, words: &str) -> Result<Vec<Task>, AllocError> {
    let mut tasks = Vec::new(alloc);
    for word in words.split(' ') {
        if let Some(task) = task_of(word) {
            tasks.push(task)?;
        }
    }
    Ok(tasks)
}

fn numbers_of(alloc: Global, words: &str) -> Result<Vec<u64>, AllocError> {
    let mut numbers = Vec::new(alloc);
    for word in words.split(' ') {
        if let Ok(number) = word.parse::<u64>() {
            numbers.push(number)?;
        }
    }
    Ok(numbers)
}

/// The least responses, or the first task that is late.
pub fn responses_of(alloc: Global, words: &str) -> Result<String, AllocError> {
    let tasks = tasks_of(alloc, words)?;
    if !are_tasks(&tasks) {
        return String::from_str(alloc, "no tasks");
    }
    match responses(alloc, &tasks) {
        Ok(found) => format!(in alloc; "{:?}", found.as_slice()),
        Err(fault) => format!(in alloc; "{fault:?}"),
    }
}

/// Whether the numbers behind the tasks are their responses.
pub fn are_fixed(alloc: Global, words: &str) -> Result<String, AllocError> {
    let Some((words, numbers)) = words.split_once(" = ") else {
        return String::from_str(alloc, "no numbers");
    };
    let tasks = tasks_of(alloc, words)?;
    if !are_tasks(&tasks) {
        return String::from_str(alloc, "no tasks");
    }
    let numbers = numbers_of(alloc, numbers)?;
    format!(in alloc; "{}", fixed(&tasks, &numbers))
}
