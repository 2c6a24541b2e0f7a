// The tasks that were read.
ghost use Rattle.std.specs.Prelude.{◌≡◌, ◌+◌, ◌++◌, ◌∷◌, ◌≤◌, [], length, OnOk};
ghost use Rattle.response_time.specs.Entries.{names_of, is_among};

use crate::{Entry, ListFault};
use wcc_base::Memory;

/// Whether a task has the name.
pub fn is_known(known: &[Entry], name: &[u8]) -> bool
    ensures { result ≡ is_among (names_of known.now) name.now }
{
    for i in 0..known.len() {
        if known[i].name.as_bytes() == name {
            return true;
        }
    }
    false
}

/// The number of the next line.
pub fn next_number(known: &[Entry]) -> u32
    requires { length known.now ≤ 64 }
    ensures { result ≡ length known.now + 1 }
{
    known.len() as u32 + 1
}

/// The fault of the next line, where it hasn't the form.
pub fn next_fails(known: &[Entry]) -> ListFault
    requires { length known.now ≤ 64 }
    ensures { result ≡ ListFault.Line (length known.now + 1) }
{
    ListFault::Line {
        number: next_number(known),
    }
}

/// Adds a task.
pub fn add(known: &mut Vec<Entry>, entry: Entry) -> Result<(), Memory>
    ensures { OnOk result (known.new.items ≡ known.old.items ++ entry ∷ []) }
{
    known.push(entry)?;
    Ok(())
}
