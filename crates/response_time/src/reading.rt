// Reading a list of tasks.
ghost use Rattle.std.specs.Prelude.{◌≡◌, ◌<◌, length, map, IfOk, IfErr};
ghost use Rattle.report_words.specs.Splitting.{words_of};
ghost use Rattle.response_time.specs.Entries.{names_of};
ghost use Rattle.response_time.specs.Forms.{Says, IsLineFault};
ghost use Rattle.response_time.specs.Lists.{IsList, IsFault};

use crate::forms::entry_of;
use crate::known::{add, next_fails};
use crate::{Entry, ListFault};
use report_words::{read_words, split_line};
use std::alloc::Global;
use wcc_base::Memory;

// As many words as a line has.
const WORDS: usize = 5;

// As many tasks as a list has at most.
const TASKS: usize = 64;

fn words_of<'a>(alloc: Global, line: &'a [u8]) -> Result<Vec<&'a [u8]>, Memory>
    ensures { IfOk result (λ words. map (λ w. w.now) words.items ≡ words_of line.now) }
{
    let mut words = Vec::with_capacity(alloc, WORDS)?;
    read_words(&mut words, line)?;
    Ok(words)
}

// The task that a line says, behind those that are known.
fn entry_at(alloc: Global, known: &[Entry], line: &[u8]) -> Result<Entry, ListFault>
    requires { length known.now < 64 }
    ensures ok { IfOk result (λ e. Says (names_of known.now) (words_of line.now) e) }
    ensures err { IfErr result (λ fault. IsLineFault (names_of known.now) (words_of line.now) fault) }
{
    match words_of(alloc, line) {
        Ok(words) => entry_of(alloc, known, words.as_slice()),
        Err(_) => Err(ListFault::Memory),
    }
}

/// The tasks of a list, or the first line that fails.
pub fn read_tasks(alloc: Global, bytes: &[u8]) -> Result<Vec<Entry>, ListFault>
    ensures ok { IfOk result (λ entries. IsList bytes.now entries.items) }
    ensures err { IfErr result (λ fault. IsFault bytes.now fault) }
{
    let mut entries = Vec::new(alloc);
    let mut rest = bytes;
    'lines: while let Some((line, behind)) = split_line(rest) {
        if entries.len() >= TASKS {
            return Err(next_fails(entries.as_slice()));
        }
        let entry = match entry_at(alloc, entries.as_slice(), line) {
            Ok(entry) => entry,
            Err(fault) => return Err(fault),
        };
        match add(&mut entries, entry) {
            Ok(()) => rest = behind,
            Err(_) => return Err(ListFault::Memory),
        }
    }
    if !rest.is_empty() {
        return Err(next_fails(entries.as_slice()));
    }
    if entries.is_empty() {
        return Err(next_fails(entries.as_slice()));
    }
    Ok(entries)
}
