// Loops, as a line tells them.
use low_ir::Loop;
use std::alloc::Global;
use wcc_base::Memory;

/// The latch of the loop of which a block is the header, if it is one.
fn latch_in(text: &str) -> Option<u32> {
    let mut latch = None;
    for part in text.split(", ") {
        if let Some(("loop", number)) = part.split_once(' ') {
            latch = number.parse::<u32>().ok();
        }
    }
    latch
}

/// The loops of a function, in the order of their headers.
pub fn loops_of(alloc: Global, text: &str) -> Result<Vec<Loop>, Memory> {
    let mut loops = Vec::new(alloc);
    let mut header = 0u32;
    for part in text.split("; ") {
        if let Some(latch) = latch_in(part) {
            loops.push(Loop {
                id: header,
                min: 0,
                max: 1,
                header,
                latch,
            })?;
        }
        header = header.wrapping_add(1);
    }
    Ok(loops)
}
