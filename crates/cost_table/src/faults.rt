// Why a table of costs is refused.
ghost use Rattle.std.specs.Prelude.{◌≡◌, ◌<◌, length, map};
ghost use Rattle.toml.specs.View.{table_view};
ghost use Rattle.cost_table.specs.Held.{key_of};
ghost use Rattle.cost_table.specs.Faults.{first_from, is_missing, is_wrong, has_other, fault_of};

use crate::keys::{Key, all_keys, is_key};
use crate::numbers::{cost_at, has_key};
use thiserror::Error;
use toml::Table;

/// Why bytes are no table of costs. Keys count from 1, in the order of `specs/Keys.antt`.
#[derive(Debug, Clone, Copy, Error)]
pub enum TableFault {
    /// They are no TOML document.
    #[error("no TOML")]
    NotToml,
    /// A wanted key is missing; or none is, and there is one that is no key, with the number 0.
    #[error("key {key}")]
    Key { key: u8 },
    /// What stands at the key is no integer in its range.
    #[error("number {key}")]
    Number { key: u8 },
    /// Memory ran out.
    #[error("memory")]
    Memory,
}

// The number of the first key that is wanted and missing.
fn first_missing(table: &Table, keys: &[Key]) -> Option<u8>
    requires { length keys.now < 255 }
    ensures { result ≡ first_from (is_missing (table_view table.now)) 1 (map key_of keys.now) }
{
    let mut number = 1;
    'keys: for key in keys {
        if !(key.optional || has_key(table, *key)) {
            return Some(number);
        }
        number += 1;
    }
    None
}

// The number of the first key at which no cost stands that it takes.
fn first_wrong(table: &Table, keys: &[Key]) -> Option<u8>
    requires { length keys.now < 255 }
    ensures { result ≡ first_from (is_wrong (table_view table.now)) 1 (map key_of keys.now) }
{
    let mut number = 1;
    'keys: for key in keys {
        if cost_at(table, *key).is_none() {
            return Some(number);
        }
        number += 1;
    }
    None
}

// Whether the document has a key that is none of these.
fn has_other(table: &Table, keys: &[Key]) -> bool
    ensures { result ≡ has_other (map key_of keys.now) (table_view table.now) }
{
    for (name, _) in table {
        if !is_key(keys, name.as_str()) {
            return true;
        }
    }
    false
}

/// The first fault of a document, if it has one.
pub fn first_fault(table: &Table) -> Option<TableFault>
    ensures { result ≡ fault_of (table_view table.now) }
{
    let keys = all_keys();
    if let Some(key) = first_missing(table, &keys) {
        return Some(TableFault::Key { key });
    }
    if has_other(table, &keys) {
        return Some(TableFault::Key { key: 0 });
    }
    match first_wrong(table, &keys) {
        Some(key) => Some(TableFault::Number { key }),
        None => None,
    }
}
