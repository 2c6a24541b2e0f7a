// The intervals of all registers of a program.
ghost use Rattle.std.specs.Prelude.{◌≡◌, [], slice_index_or};

use super::interval::Interval;
use std::marker::Model;
use wcc_base::Items;

/// By function, and then by register: the places from the least to the greatest; none where a register has no place.
#[derive(Drop)]
pub struct Live {
    functions: Vec<Items<Option<Interval>>>,
}

impl Model for Live {
    ghost use Rattle.std.specs.Prelude.{List, Option};
    ghost use Rattle.register_live_ranges.specs.declared.interval.Interval.{Interval};

    ghost Value = { List (List (Option Interval)) };

    ghost view = { λ l. l.functions.items };
}

impl Live {
    pub fn new(functions: Vec<Items<Option<Interval>>>) -> Live
        ensures { result ≡ functions.items }
    {
        Live { functions }
    }

    /// Those of one function.
    pub fn of(&self, function: usize) -> &[Option<Interval>]
        ensures { result.now ≡ slice_index_or self.now function [] }
    {
        match self.functions.get(function) {
            None => &[],
            Some(intervals) => intervals.as_slice(),
        }
    }
}
