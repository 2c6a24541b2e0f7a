// What lies in the scratchpad.
use image_fitting::spend;
use image_memory::Placement;
use image_segments::array_size;
use low_ir::Low;
use low_ir::object::Object;
use std::alloc::Global;
use wcc_base::Memory;

/// What is placed of a row, and the bytes that are left for others.
#[derive(Drop)]
struct Chosen {
    placed: Vec<bool>,
    left: u64,
}

/// Arrays, each that still has room.
fn choose_arrays(alloc: Global, from: u64, objects: &[Object]) -> Result<Chosen, Memory> {
    let mut left = from;
    let mut placed = Vec::new(alloc);
    for object in objects {
        match spend(left, array_size(object)) {
            None => placed.push(false)?,
            Some(rest) => {
                left = rest;
                placed.push(true)?;
            }
        }
    }
    Ok(Chosen { placed, left })
}

/// Functions of these sizes, each that still has room.
fn choose_functions(alloc: Global, from: u64, sizes: &[u32]) -> Result<Chosen, Memory> {
    let mut left = from;
    let mut placed = Vec::new(alloc);
    for size in sizes {
        match spend(left, u64::from(*size)) {
            None => placed.push(false)?,
            Some(rest) => {
                left = rest;
                placed.push(true)?;
            }
        }
    }
    Ok(Chosen { placed, left })
}

/// Arrays and then functions, in order, each that still has room in the scratchpad; by the sizes of the functions.
pub fn everything(alloc: Global, low: &Low, sizes: &[u32]) -> Result<Placement, Memory> {
    let arrays = choose_arrays(alloc, 65_536, &low.objects)?;
    let functions = choose_functions(alloc, arrays.left, sizes)?;
    Ok(Placement {
        functions: functions.placed,
        objects: arrays.placed,
    })
}
