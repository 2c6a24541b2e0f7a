// What is placed.
use crate::numbers::numbers_of;
use spm_placement::placement;
use std::alloc::Global;
use wcc_base::Memory;

fn bits(alloc: Global, marks: &[bool]) -> Result<String, Memory> {
    let mut line = String::new(alloc);
    for mark in marks {
        line.push_str(if *mark { "1" } else { "0" })?;
    }
    Ok(line)
}

pub fn place_answer(alloc: Global, line: &str) -> Result<String, Memory> {
    let numbers = numbers_of(alloc, line)?;
    let [functions, arrays, chosen @ ..] = numbers.as_slice() else {
        return Ok(String::from_str(alloc, "no sizes")?);
    };
    let placed = placement(alloc, chosen, *functions as usize, *arrays as usize)?;
    let own = bits(alloc, &placed.functions)?;
    let objects = bits(alloc, &placed.objects)?;
    Ok(format!(in alloc; "functions {own} arrays {objects}")?)
}
