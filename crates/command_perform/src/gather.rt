// The first step of a command: it reads the files that the words name.
ghost use Rattle.std.specs.Prelude.{◌≡◌, ◌≤◌, ◌+◌, [], ◌∷◌, map, length, IfOk, IfSome, MatchResult};
ghost use Rattle.wcc_base.specs.Outside.{bytes_of};
ghost use Rattle.wcc_base.specs.Limits.{greatest_of};
ghost use Rattle.command_words.specs.Held.{table_name};
ghost use Rattle.command_perform.specs.Tables.{wanted_table};
ghost use Rattle.command_perform.specs.Asked.{command_of};
ghost use Rattle.command_perform.specs.Commands.{wanted_of};
ghost use Rattle.command_perform.specs.Gathering.{wanted, Gathered, NotGathered, OnlyRead};

use crate::files::{Reading, read_all};
use crate::words::Command;
use std::alloc::Global;
use wcc_base::{Bound, Fault, Items, Status, Store, limit_of};

/// A file that is read, and the limit of its length.
#[derive(Clone, Copy)]
pub struct Wanted<'a> {
    pub name: &'a str,
    pub which: Bound,
}

/// A file that is read, up to the limit of what it holds.
pub fn want<'a>(name: &'a str, which: Bound) -> Wanted<'a>
    ensures { wanted result ≡ (name.now, which) }
{
    Wanted { name, which }
}

// Reads one file.
fn read_wanted<S: Store>(alloc: Global, store: &mut S, file: Wanted) -> Result<Items<u8>, Status>
    ensures files { MatchResult result
        (λ bytes. IfSome (S.state store.old).files (λ fs. (bytes ≡ bytes_of fs file.entry.name.now) × (length (bytes_of fs file.entry.name.now) ≤ greatest_of file.entry.which)))
        (λ s. NotGathered (wanted file.entry ∷ []) (S.state store.old).files s) }
    ensures reads { OnlyRead (S.state store.old) (S.state store.new) result }
{
    match read_all(alloc, store, file.name, limit_of(file.which) as usize) {
        Ok(Reading::Whole(bytes)) => Ok(Items::new(bytes)),
        Ok(Reading::TooLong) => Err(Status::Limit {
            which: file.which,
            found: limit_of(file.which) + 1,
        }),
        Err(Fault::Failed) => Err(Status::ReadFault),
        Err(Fault::Memory) => Err(Status::Memory),
    }
}

/// Reads files in order.
pub fn read_each<S: Store>(
    alloc: Global,
    store: &mut S,
    files: &[Wanted],
) -> Result<Vec<Items<u8>>, Status>
    ensures files { MatchResult result
        (λ contents. Gathered (map wanted files.now) (S.state store.old).files contents.items)
        (λ s. NotGathered (map wanted files.now) (S.state store.old).files s) }
    ensures count { IfOk result (λ contents. length contents.items ≡ length files.now) }
    ensures reads { OnlyRead (S.state store.old) (S.state store.new) result }
{
    let mut contents = Vec::new(alloc);
    'files: for file in files {
        let bytes = match read_wanted(alloc, store, *file) {
            Ok(bytes) => bytes,
            Err(status) => return Err(status),
        };
        match contents.push(bytes) {
            Ok(()) => {}
            Err(_) => return Err(Status::Memory),
        }
    }
    Ok(contents)
}

/// Reads a file, and behind it the table of costs where one is named.
pub fn read_charged<S: Store>(
    alloc: Global,
    store: &mut S,
    file: Wanted,
    table: Option<&str>,
) -> Result<Vec<Items<u8>>, Status>
    ensures files { MatchResult result
        (λ contents. Gathered (wanted file.entry ∷ wanted_table (table_name table.entry)) (S.state store.old).files contents.items)
        (λ s. NotGathered (wanted file.entry ∷ wanted_table (table_name table.entry)) (S.state store.old).files s) }
    ensures count { IfOk result (λ contents. length contents.items ≡ 1 + length (wanted_table (table_name table.entry))) }
    ensures reads { OnlyRead (S.state store.old) (S.state store.new) result }
{
    match table {
        Some(table) => read_each(alloc, store, &[file, want(table, Bound::Table)]),
        None => read_each(alloc, store, &[file]),
    }
}

// The same of two files.
fn read_two_charged<S: Store>(
    alloc: Global,
    store: &mut S,
    files: (Wanted, Wanted),
    table: Option<&str>,
) -> Result<Vec<Items<u8>>, Status>
    ensures files { MatchResult result
        (λ contents. Gathered (wanted files.entry.0 ∷ wanted files.entry.1 ∷ wanted_table (table_name table.entry)) (S.state store.old).files contents.items)
        (λ s. NotGathered (wanted files.entry.0 ∷ wanted files.entry.1 ∷ wanted_table (table_name table.entry)) (S.state store.old).files s) }
    ensures count { IfOk result (λ contents. length contents.items ≡ 2 + length (wanted_table (table_name table.entry))) }
    ensures reads { OnlyRead (S.state store.old) (S.state store.new) result }
{
    let (first, second) = files;
    match table {
        Some(table) => read_each(alloc, store, &[first, second, want(table, Bound::Table)]),
        None => read_each(alloc, store, &[first, second]),
    }
}

/// Reads the files of a command, in order.
pub fn gather<S: Store>(
    alloc: Global,
    store: &mut S,
    command: Command,
) -> Result<Vec<Items<u8>>, Status>
    ensures files { MatchResult result
        (λ contents. Gathered (wanted_of (command_of command.entry)) (S.state store.old).files contents.items)
        (λ s. NotGathered (wanted_of (command_of command.entry)) (S.state store.old).files s) }
    ensures count { IfOk result (λ contents. length contents.items ≡ length (wanted_of (command_of command.entry))) }
    ensures reads { OnlyRead (S.state store.old) (S.state store.new) result }
{
    match command {
        Command::Compile(asked) => {
            let source = want(asked.source, Bound::Source);
            read_charged(alloc, store, source, asked.table)
        }
        Command::Check(asked) => read_two_charged(
            alloc,
            store,
            (
                want(asked.image, Bound::Image),
                want(asked.report, Bound::Report),
            ),
            asked.table,
        ),
        Command::Run(asked) => read_two_charged(
            alloc,
            store,
            (
                want(asked.image, Bound::Image),
                want(asked.input, Bound::Input),
            ),
            asked.table,
        ),
        Command::Eval(asked) => read_each(
            alloc,
            store,
            &[
                want(asked.source, Bound::Source),
                want(asked.input, Bound::Input),
            ],
        ),
        Command::Report(asked) => read_each(alloc, store, &[want(asked.report, Bound::Report)]),
        Command::Make(_) => read_each(alloc, store, &[]),
    }
}
