// What a document gives the keys.
ghost use Rattle.std.specs.Prelude.{◌≡◌, ◌≤◌, option_and_then, is_some, true, None};
ghost use Rattle.toml.specs.View.{table_view};
ghost use Rattle.toml.specs.Data.{get_member};
ghost use Rattle.rv_core.specs.CostRange.{IsFetchCost};
ghost use Rattle.rv_core.specs.Table.{table_of};
ghost use Rattle.cost_table.specs.Held.{key_of};
ghost use Rattle.cost_table.specs.Keys.{fetch, part, extra};
ghost use Rattle.cost_table.specs.Numbers.{cost_from, cost_by, cost_at, cost_of, table_in};
ghost use Rattle.cost_table.specs.Faults.{fault_of};

use crate::keys::{Key, extra, fetch, part};
use rv_core::Costs;
use toml::Table;

// A cost from `least` to 1000.
fn cost_from(least: u32, number: Option<i64>) -> Option<u32>
    ensures { result ≡ option_and_then (cost_from least) number }
{
    match number {
        Some(number) => {
            if number < i64::from(least) {
                return None;
            }
            if number > 1000 {
                return None;
            }
            Some(number as u32)
        }
        None => None,
    }
}

// What a key costs that a table leaves out.
fn cost_without(key: Key) -> Option<u32>
    ensures { result ≡ cost_by (key_of key) None }
{
    if key.optional {
        return Some(0);
    }
    None
}

/// Whether the document has the key.
pub fn has_key(table: &Table, key: Key) -> bool
    ensures { result ≡ is_some (get_member key.name.now (table_view table.now)) }
{
    match table.get(key.name) {
        Some(_) => true,
        None => false,
    }
}

/// The cost that the document gives the key.
pub fn cost_at(table: &Table, key: Key) -> Option<u32>
    ensures { result ≡ cost_at (table_view table.now) (key_of key) }
{
    match table.get(key.name) {
        Some(value) => cost_from(key.least, value.as_integer()),
        None => cost_without(key),
    }
}

// The cost of the key, and 0 where the document gives it none.
fn cost(table: &Table, key: Key) -> u32
    ensures cost { result ≡ cost_of (table_view table.now) (key_of key) }
    ensures most { result ≤ 1000 }
{
    match cost_at(table, key) {
        Some(cost) => cost,
        None => 0,
    }
}

// The cost of a fetch, which the document gives.
fn fetch_cost(table: &Table, name: &'static str) -> u32
    requires { is_some (cost_at (table_view table.now) (fetch name.now)) ≡ true }
    ensures cost { result ≡ cost_of (table_view table.now) (fetch name.now) }
    ensures range { IsFetchCost result }
{
    cost(table, fetch(name))
}

// The cost of another part of a step.
fn part_cost(table: &Table, name: &'static str) -> u32
    ensures cost { result ≡ cost_of (table_view table.now) (part name.now) }
    ensures most { result ≤ 1000 }
{
    cost(table, part(name))
}

// A cost that a table may leave out.
fn extra_cost(table: &Table, name: &'static str) -> u32
    ensures cost { result ≡ cost_of (table_view table.now) (extra name.now) }
    ensures most { result ≤ 1000 }
{
    cost(table, extra(name))
}

/// The costs of a document without a fault.
pub fn costs_in(table: &Table) -> Costs
    requires { fault_of (table_view table.now) ≡ None }
    ensures { table_of result ≡ table_in (table_view table.now) }
{
    Costs {
        fetch_flash: fetch_cost(table, "fetch_flash"),
        fetch_spm: fetch_cost(table, "fetch_spm"),
        alu: part_cost(table, "alu"),
        mul: part_cost(table, "mul"),
        div: part_cost(table, "div"),
        load: part_cost(table, "load"),
        store: part_cost(table, "store"),
        branch: part_cost(table, "branch"),
        branch_taken: part_cost(table, "branch_taken"),
        jump: part_cost(table, "jump"),
        ecall: part_cost(table, "ecall"),
        data_flash: part_cost(table, "data_flash"),
        data_ram: part_cost(table, "data_ram"),
        data_spm: part_cost(table, "data_spm"),
        stall: extra_cost(table, "stall"),
    }
}
