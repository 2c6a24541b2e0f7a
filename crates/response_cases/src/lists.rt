// Lists of tasks as texts.
use response_time::{Entry, read_tasks};
use std::alloc::{AllocError, Global};
use std::str::from_utf8;

fn shown(alloc: Global, entry: &Entry) -> Result<String, AllocError> {
    let name = from_utf8(entry.name.as_bytes()).unwrap_or("no name");
    let image = from_utf8(entry.image.as_bytes()).unwrap_or("no image");
    let report = from_utf8(entry.report.as_bytes()).unwrap_or("no report");
    format!(in alloc; "{name} {} {image} {report};", entry.period)
}

/// The tasks of a list, or the first line that fails.
pub fn listed(alloc: Global, text: &str) -> Result<String, AllocError> {
    let text = text.replace(alloc, "|", "\n")?;
    match read_tasks(alloc, text.as_bytes()) {
        Ok(entries) => {
            let mut line = String::new(alloc);
            for entry in &entries {
                let told = shown(alloc, entry)?;
                line.push_str(told.as_str())?;
            }
            Ok(line)
        }
        Err(fault) => format!(in alloc; "{fault:?}"),
    }
}
