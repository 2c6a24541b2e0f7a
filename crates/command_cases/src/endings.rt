// The definition of endings as Rust, for calls in which memory suffices: `Ending` and `EndsWith` of `command_perform`, with
// `all_put`, `Partly` and `Reported` below them.

use std::alloc::Global;
use std::test::Fail;
use wcc_base::Status;

/// What a command makes of the contents of its files: its status, the files that it writes, in order, and its lines.
#[derive(Drop)]
pub struct Outputs {
    pub status: Status,
    pub files: Vec<(String, Vec<u8>)>,
    pub lines: Vec<u8>,
}

/// What is seen of a call from outside.
#[derive(Clone, Copy)]
pub struct Seen<'a> {
    pub status: Status,
    pub files: &'a [(String, Vec<u8>)],
    pub read_faults: u32,
    pub write_faults: u32,
    pub printed: &'a [u8],
    pub sink_faults: u32,
}

/// Whether both have the same files, in the same order.
pub fn are_same(one: &[(String, Vec<u8>)], other: &[(String, Vec<u8>)]) -> bool {
    if one.len() != other.len() {
        return false;
    }
    for (a, b) in one.iter().zip(other) {
        if a.0.as_str() != b.0.as_str() || a.1.as_slice() != b.1.as_slice() {
            return false;
        }
    }
    true
}

/// The bytes of a file, and none of an absent one.
pub fn bytes_of<'a>(files: &'a [(String, Vec<u8>)], name: &str) -> &'a [u8] {
    for file in files {
        if file.0.as_str() == name {
            return file.1.as_slice();
        }
    }
    &[]
}

/// These files with these bytes in the named one, new or not.
pub fn put_file(
    alloc: Global,
    name: &str,
    bytes: &[u8],
    files: &[(String, Vec<u8>)],
) -> Result<Vec<(String, Vec<u8>)>, Fail> {
    let mut put = Vec::new(alloc);
    let mut is_there = false;
    for file in files {
        let is_it = file.0.as_str() == name;
        let held = if is_it { bytes } else { file.1.as_slice() };
        put.push((
            String::from_str(alloc, file.0.as_str())?,
            Vec::from_slice(alloc, held)?,
        ))?;
        is_there = is_there || is_it;
    }
    if !is_there {
        put.push((
            String::from_str(alloc, name)?,
            Vec::from_slice(alloc, bytes)?,
        ))?;
    }
    Ok(put)
}

/// All files of the first list are written, in order.
pub fn all_put(
    alloc: Global,
    files: &[(String, Vec<u8>)],
    old: &[(String, Vec<u8>)],
) -> Result<Vec<(String, Vec<u8>)>, Fail> {
    let mut now = Vec::new(alloc);
    for file in old {
        now = put_file(alloc, file.0.as_str(), file.1.as_slice(), &now)?;
    }
    for file in files {
        now = put_file(alloc, file.0.as_str(), file.1.as_slice(), &now)?;
    }
    Ok(now)
}

// The files were written in order: those before the last begun one are whole, that one has a first part of its bytes or is as
// it was, and those behind it are as they were.
fn is_partly(
    alloc: Global,
    files: &[(String, Vec<u8>)],
    old: &[(String, Vec<u8>)],
    new: &[(String, Vec<u8>)],
) -> Result<bool, Fail> {
    let mut now = all_put(alloc, &[], old)?;
    for file in files {
        let name = file.0.as_str();
        let whole = file.1.as_slice();
        let begun = bytes_of(new, name).len().min(whole.len());
        if are_same(new, &now) || are_same(new, &put_file(alloc, name, &whole[..begun], &now)?) {
            return Ok(true);
        }
        now = put_file(alloc, name, whole, &now)?;
    }
    Ok(are_same(new, &now))
}

// The status where the sink failed.
fn status_after_fault(status: Status) -> Status {
    match status {
        Status::Done => Status::WriteFault,
        other => other,
    }
}

// The lines were put whole, or the sink failed there and a first part was put.
fn is_reported(status: Status, lines: &[u8], seen: Seen) -> bool {
    match seen.sink_faults {
        0 => seen.status == status && seen.printed == lines,
        1 => seen.status == status_after_fault(status) && lines.starts_with(seen.printed),
        _ => false,
    }
}

/// Whether a call ended as is defined, by what it makes, the files before it, and what was seen: a read fault, where a fault
/// in reading was counted; what is made, in part, where one in writing was; and else all of it. A refusal makes no files.
pub fn ends_with(
    alloc: Global,
    made: &Outputs,
    old: &[(String, Vec<u8>)],
    seen: Seen,
) -> Result<bool, Fail> {
    Ok(match (seen.read_faults, seen.write_faults) {
        (1, 0) => are_same(seen.files, old)
            && is_reported(Status::ReadFault, b"read fault\n", seen),
        (0, 1) => {
            is_partly(alloc, &made.files, old, seen.files)?
                && is_reported(Status::WriteFault, b"write fault\n", seen)
        }
        (0, 0) => {
            are_same(seen.files, &all_put(alloc, &made.files, old)?)
                && is_reported(made.status, made.lines.as_slice(), seen)
        }
        _ => false,
    })
}
