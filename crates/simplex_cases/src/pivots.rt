// Rows, and what a pivot makes of one.
use crate::numbers::{numbers_of, shown};
use simplex_tables::{reduced, turned};
use std::alloc::{AllocError, Global};

pub fn reduced_answer(alloc: Global, text: &str) -> Result<String, AllocError> {
    let row = numbers_of(alloc, text)?;
    let new = reduced(alloc, &row)?;
    shown(alloc, &new)
}

/// The row that a pivot makes of another one, as long as the pivot's.
fn turned_by(
    alloc: Global,
    place: usize,
    base: &[i128],
    row: &[i128],
) -> Result<String, AllocError> {
    if place >= base.len() || base.len() != row.len() {
        return String::from_str(alloc, "no rows");
    }
    match turned(alloc, place, base, row)? {
        Some(new) => shown(alloc, &new),
        None => String::from_str(alloc, "wide"),
    }
}

pub fn turned_answer(alloc: Global, text: &str) -> Result<String, AllocError> {
    let Some((place, rows)) = text.split_once(' ') else {
        return String::from_str(alloc, "no place");
    };
    let Some((base, row)) = rows.split_once('/') else {
        return String::from_str(alloc, "no second row");
    };
    let base = numbers_of(alloc, base)?;
    let row = numbers_of(alloc, row)?;
    turned_by(alloc, place.parse::<usize>().unwrap_or(0), &base, &row)
}
