// The simplex method, in floats.

use crate::cells::{cell, number_at, put};
use crate::master::{Master, broken, float, slack, total_at};
use code_flow_answer::Column;
use std::alloc::{AllocError, Global};
use wcc_base::Compare;

/// What is less is no gain.
const LEAST_GAIN: f64 = 1e-12;

/// What is less is nothing to divide by.
const LEAST_ENTRY: f64 = 1e-9;

/// Quotients that are no further apart are one.
const SAME: f64 = 1e-12;

/// A fact is broken by what is more.
const LEAST_BROKEN: f64 = 1e-7;

/// A column that gains less, in cycles, doesn't improve.
const LEAST_CYCLES: f64 = 1e-4;

/// How much more a fact that is broken costs, where it still is.
const RAISE: f64 = 64.0;

/// It costs no more.
const MOST_COST: f64 = 1e8;

/// No solution takes more pivots.
const MOST_PIVOTS: usize = 2_000;

impl Master {
    /// Whether a fact is an equation.
    fn is_equal(&self, fact: usize) -> bool {
        fact < self.ops.len() && matches!(self.ops[fact], Compare::Equal)
    }

    /// What a place of a fact is worth: nothing, or what it costs to break it.
    fn fact_worth(&self, place: usize) -> f64 {
        let fact = place.wrapping_sub(1) / 2;
        if place == slack(fact) && !self.is_equal(fact) {
            return 0.0;
        }
        -self.cost * number_at(&self.sizes, fact, 1.0)
    }

    /// What a place is worth.
    pub(crate) fn worth(&self, place: usize) -> f64 {
        if place == 0 || place == self.sum() {
            return 0.0;
        }
        if place < self.sum() {
            return self.fact_worth(place);
        }
        number_at(&self.values, place.wrapping_sub(self.first()), 0.0)
    }

    /// Divides a row.
    fn divide(&mut self, row: usize, by: f64) {
        for place in 0..self.width() {
            let number = cell(&self.cells, row, place) / by;
            put(&mut self.cells, row, place, number);
        }
    }

    /// Takes a row, so often, from another one.
    fn take(&mut self, row: usize, often: f64, from: usize) {
        for place in 0..self.width() {
            let number = cell(&self.cells, from, place) - often * cell(&self.cells, row, place);
            put(&mut self.cells, from, place, number);
        }
    }

    /// Takes a place in, in a row.
    fn pivot(&mut self, row: usize, place: usize) {
        let by = cell(&self.cells, row, place);
        self.divide(row, by);
        for other in 0..self.owns.len() {
            let often = cell(&self.cells, other, place);
            if other != row && often != 0.0 {
                self.take(row, often, other);
                put(&mut self.cells, other, place, 0.0);
            }
        }
        if row < self.owns.len() {
            self.owns[row] = place;
        }
    }

    /// The first column, and what it breaks.
    pub(crate) fn begin(&mut self) {
        let facts = self.ops.len();
        let first = self.first();
        self.pivot(facts, first);
        for fact in 0..facts {
            if cell(&self.cells, fact, 0) < 0.0 {
                self.pivot(fact, broken(fact));
            }
        }
    }

    /// What a place would gain.
    fn gain(&self, place: usize) -> f64 {
        let mut gain = self.worth(place);
        for row in 0..self.owns.len() {
            gain = gain - self.worth(self.owns[row]) * cell(&self.cells, row, place);
        }
        gain
    }

    /// Makes the gains anew.
    fn price(&mut self) {
        let row = self.gains();
        for place in 0..self.width() {
            let gain = self.gain(place);
            put(&mut self.cells, row, place, gain);
        }
    }

    /// The place of the greatest gain.
    fn entering(&self) -> Option<usize> {
        let mut most = LEAST_GAIN;
        let mut found = None;
        for place in 1..self.width() {
            let gain = cell(&self.cells, self.gains(), place);
            if place != self.sum() && gain > most {
                most = gain;
                found = Some(place);
            }
        }
        found
    }

    /// The row of the least quotient, of equal ones that with the greatest number.
    fn leaving(&self, place: usize) -> Option<usize> {
        let mut least = f64::MAX;
        let mut most = 0.0;
        let mut found = None;
        for row in 0..self.owns.len() {
            let by = cell(&self.cells, row, place);
            let quotient = cell(&self.cells, row, 0).max(0.0) / by;
            let is_less = quotient < least - SAME || (quotient <= least + SAME && by > most);
            if by > LEAST_ENTRY && is_less {
                least = quotient;
                most = by;
                found = Some(row);
            }
        }
        found
    }

    /// Solves the program, from where it stands.
    pub fn solve(&mut self) {
        for _ in 0..MOST_PIVOTS {
            self.price();
            let Some(place) = self.entering() else {
                return;
            };
            let Some(row) = self.leaving(place) else {
                return;
            };
            self.pivot(row, place);
        }
    }

    /// Whether the column that was added last improves on the solution.
    fn improves(&self) -> bool {
        let gain = self.gain(self.width().wrapping_sub(1));
        gain > LEAST_GAIN && gain * self.unit > LEAST_CYCLES
    }

    /// Whether a fact is broken, though it costs.
    fn breaks(&self) -> bool {
        for row in 0..self.owns.len() {
            let costs = self.owns[row] < self.sum() && self.worth(self.owns[row]) < 0.0;
            if costs && cell(&self.cells, row, 0) > LEAST_BROKEN {
                return true;
            }
        }
        false
    }

    /// The bound of a column at the prices that were asked last, over the unit.
    fn bound(&self, column: &Column) -> f64 {
        let mut bound = float(column.value);
        for fact in 0..self.asked.len() {
            bound = bound - self.asked[fact] * total_at(column.totals.as_slice(), fact);
        }
        bound / self.unit
    }

    /// Keeps the prices that were asked last, if they bound less.
    fn keep(&mut self, alloc: Global, column: &Column) -> Result<(), AllocError> {
        let bound = self.bound(column);
        if bound < self.least {
            self.least = bound;
            self.center = Vec::from_slice(alloc, &self.asked)?;
        }
        Ok(())
    }

    /// Adds a column. Whether the program is to be solved again: the column improves on its solution, or that breaks a fact, which
    /// costs more from now on, or it was found half way to the least bound.
    pub fn grows(&mut self, alloc: Global, column: &Column) -> Result<bool, AllocError> {
        self.keep(alloc, column)?;
        self.add(column)?;
        if self.improves() {
            self.halves = !self.breaks();
            return Ok(true);
        }
        if self.halves {
            self.halves = false;
            return Ok(true);
        }
        if self.breaks() && self.cost < MOST_COST {
            self.cost = self.cost * RAISE;
            self.least = f64::MAX;
            return Ok(true);
        }
        Ok(false)
    }
}
