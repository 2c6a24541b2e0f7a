// The numbers of a tableau, row by row.

use crate::master::MOST_COLUMNS;

/// A row has its right side, two places for each of 32 facts, one for the sum of the weights, and one for each column.
const WIDTH: usize = 66 + MOST_COLUMNS;

/// The rows of 32 facts, that of the weights' sum and that of the gains.
pub(crate) const CELLS: usize = 34 * WIDTH;

/// Where the number of a row at a place stands.
fn cell_at(row: usize, place: usize) -> usize {
    row.wrapping_mul(WIDTH).wrapping_add(place)
}

/// The number of a list at a place, or another one where it has none.
pub(crate) fn number_at(numbers: &[f64], place: usize, other: f64) -> f64 {
    if place < numbers.len() {
        numbers[place]
    } else {
        other
    }
}

/// The number of a row at a place.
pub(crate) fn cell(cells: &[f64], row: usize, place: usize) -> f64 {
    number_at(cells, cell_at(row, place), 0.0)
}

/// Puts a number there.
pub(crate) fn put(cells: &mut [f64], row: usize, place: usize, number: f64) {
    let at = cell_at(row, place);
    if at < cells.len() {
        cells[at] = number;
    }
}
