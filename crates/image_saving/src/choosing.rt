// The registers that functions save, and those that have words in their frames.
ghost use Rattle.std.specs.Prelude.{◌≡◌, ◌<◌, ◌≤◌, [], false, IfOk, slice_index_or};
ghost use Rattle.low_ir.specs.Places.{machine_registers};
ghost use Rattle.image_frames.specs.Registers.{holds, chosen};
ghost use Rattle.image_frames.specs.Needs.{outline_at};
ghost use Rattle.image_saving.specs.Saved.{is_saved, saved_by, columns_of};

use super::spreading::needing;
use super::walks::Outline;
use std::alloc::Global;
use wcc_base::{Items, Memory};

/// By register, and by function, whether those that wait for the function need the register.
pub fn columns(alloc: Global, outlines: &[Outline]) -> Result<Vec<Items<bool>>, Memory>
    ensures { IfOk result (λ columns. columns.items ≡ columns_of outlines.now) }
{
    let mut columns = Vec::new(alloc);
    for register in 0..24 {
        columns.push(Items::new(needing(alloc, outlines, register)?))?;
    }
    Ok(columns)
}

fn is_needed(columns: &[Items<bool>], function: usize, register: usize) -> bool
    ensures { result ≡ slice_index_or (slice_index_or columns.now register []) function false }
{
    match columns.get(register) {
        Some(column) => match column.as_slice().get(function) {
            Some(needed) => *needed,
            None => false,
        },
        None => false,
    }
}

#[tactic(auto, using(crate::proofs::KeptLemmas::written_past))]
fn is_written(outlines: &[Outline], function: usize, register: usize) -> bool
    requires { register < machine_registers }
    ensures { result ≡ holds (outline_at outlines.now function).written register }
{
    if function < outlines.len() {
        let outline = &outlines[function];
        outline.written[register]
    } else {
        false
    }
}

#[tactic(auto, using(crate::proofs::ColumnLemmas::column_is))]
fn is_saved(outlines: &[Outline], columns: &[Items<bool>], function: usize, register: usize) -> bool
    requires register { register < machine_registers }
    requires columns { columns.now ≡ columns_of outlines.now }
    ensures { result ≡ is_saved outlines.now function register }
{
    is_written(outlines, function, register) && is_needed(columns, function, register)
}

#[tactic(auto, using(crate::proofs::ColumnLemmas::chosen_down))]
fn saved_below(
    alloc: Global,
    outlines: &[Outline],
    columns: &[Items<bool>],
    function: usize,
    count: usize,
) -> Result<Vec<u8>, Memory>
    requires columns { columns.now ≡ columns_of outlines.now }
    requires count { count ≤ machine_registers }
    ensures { IfOk result (λ registers. registers.items ≡ chosen (is_saved outlines.now function) count) }
{
    let mut registers = Vec::new(alloc);
    let mut left = count;
    while left > 0 {
        left -= 1;
        if is_saved(outlines, columns, function, left) {
            registers.push(left as u8)?;
        }
    }
    Ok(registers)
}

/// The registers that a function saves, the highest first.
pub fn saved(
    alloc: Global,
    outlines: &[Outline],
    columns: &[Items<bool>],
    function: usize,
) -> Result<Vec<u8>, Memory>
    requires { columns.now ≡ columns_of outlines.now }
    ensures { IfOk result (λ registers. registers.items ≡ saved_by outlines.now function) }
{
    saved_below(alloc, outlines, columns, function, 24)
}

#[tactic(auto, using(crate::proofs::ColumnLemmas::chosen_down))]
fn homes_below(alloc: Global, outline: &Outline, count: usize) -> Result<Vec<u8>, Memory>
    requires { count ≤ machine_registers }
    ensures { IfOk result (λ registers. registers.items ≡ chosen (holds outline.now.housed) count) }
{
    let mut registers = Vec::new(alloc);
    let mut left = count;
    while left > 0 {
        left -= 1;
        if outline.housed[left] {
            registers.push(left as u8)?;
        }
    }
    Ok(registers)
}

/// The registers that have words in the frame of a function, the highest first.
pub fn homes(alloc: Global, outline: &Outline) -> Result<Vec<u8>, Memory>
    ensures { IfOk result (λ registers. registers.items ≡ chosen (holds outline.now.housed) machine_registers) }
{
    homes_below(alloc, outline, 24)
}
