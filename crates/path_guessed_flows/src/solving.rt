// Systems of linear equations, modulo the prime (Gauss's elimination).

use crate::residues::{difference, inverse, product, residue};
use std::alloc::{AllocError, Global};

/// As many equations as unknowns: each has a number for each unknown, and its right side.
#[derive(Drop)]
struct Rows {
    cells: Vec<u128>,
    unknowns: usize,
}

impl Rows {
    /// How many numbers a row has.
    fn width(&self) -> usize {
        self.unknowns.wrapping_add(1)
    }

    /// Where a row's number at a place stands.
    fn at(&self, row: usize, place: usize) -> usize {
        row.wrapping_mul(self.width()).wrapping_add(place)
    }

    /// A row's number at a place.
    fn cell(&self, row: usize, place: usize) -> u128 {
        let at = self.at(row, place);
        if at < self.cells.len() {
            self.cells[at]
        } else {
            0
        }
    }

    /// Puts a number there.
    fn put(&mut self, row: usize, place: usize, number: u128) {
        let at = self.at(row, place);
        if at < self.cells.len() {
            self.cells[at] = number;
        }
    }

    /// A row from that of an unknown on that has a number for it.
    fn pivot(&self, unknown: usize) -> Option<usize> {
        for row in unknown..self.unknowns {
            if self.cell(row, unknown) != 0 {
                return Some(row);
            }
        }
        None
    }

    /// Lets two rows change places.
    fn swap(&mut self, one: usize, other: usize) {
        for place in 0..self.width() {
            let number = self.cell(one, place);
            let another = self.cell(other, place);
            self.put(one, place, another);
            self.put(other, place, number);
        }
    }

    /// Divides a row by its number for an unknown.
    fn divide(&mut self, row: usize, unknown: usize) {
        let by = inverse(self.cell(row, unknown));
        for place in 0..self.width() {
            let number = product(self.cell(row, place), by);
            self.put(row, place, number);
        }
    }

    /// Takes a row from another one, so that this has no number for an unknown.
    fn take(&mut self, row: usize, from: usize, unknown: usize) {
        let often = self.cell(from, unknown);
        for place in 0..self.width() {
            let less = product(often, self.cell(row, place));
            let number = difference(self.cell(from, place), less);
            self.put(from, place, number);
        }
    }

    /// Leaves an unknown to its row alone; whether that can be done.
    fn eliminate(&mut self, unknown: usize) -> bool {
        let Some(row) = self.pivot(unknown) else {
            return false;
        };
        self.swap(row, unknown);
        self.divide(unknown, unknown);
        for other in 0..self.unknowns {
            if other != unknown && self.cell(other, unknown) != 0 {
                self.take(unknown, other, unknown);
            }
        }
        true
    }
}

/// Equations modulo the prime.
fn rows_of(alloc: Global, numbers: &[i128], unknowns: usize) -> Result<Rows, AllocError> {
    let mut cells = Vec::new(alloc);
    for i in 0..numbers.len() {
        cells.push(residue(numbers[i]))?;
    }
    Ok(Rows { cells, unknowns })
}

/// The right sides, where each row has one unknown alone.
fn right_sides(alloc: Global, rows: &Rows) -> Result<Vec<u128>, AllocError> {
    let mut sides = Vec::new(alloc);
    for row in 0..rows.unknowns {
        sides.push(rows.cell(row, rows.unknowns))?;
    }
    Ok(sides)
}

/// The solution of equations, modulo the prime; none where they have none or more. The numbers are those of one equation after the
/// other, each with its right side.
pub(crate) fn solution(
    alloc: Global,
    numbers: &[i128],
    unknowns: usize,
) -> Result<Option<Vec<u128>>, AllocError> {
    let mut rows = rows_of(alloc, numbers, unknowns)?;
    for unknown in 0..unknowns {
        if !rows.eliminate(unknown) {
            return Ok(None);
        }
    }
    let sides = right_sides(alloc, &rows)?;
    Ok(Some(sides))
}
