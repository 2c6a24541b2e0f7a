// Where a pointer is stepped. It needn't be where its index is: it may lag, and accesses take up by how much.
use super::finding::Found;
use super::parts::growth_of;
use pass_dataflow_facts::Form;
use pass_strength_sketches::forms::is_near;
use pass_strength_sketches::map::Map;
use pass_strength_sketches::tables::{flag_at, number_at, set_flag, set_number};
use std::alloc::Global;
use wcc_base::Memory;

/// How often a loop is gone through at most.
const SWEEPS: u32 = 24;

/// By block of a loop.
#[derive(Drop)]
pub struct Lags {
    /// Whether the pointer is stepped at its end.
    pub flushes: Vec<bool>,
    /// By how much it lags as it begins.
    pub lags: Vec<u32>,
    /// And as it ends.
    behind: Vec<u32>,
    /// By how much the pointer is to grow in it.
    growths: Vec<u32>,
    first: usize,
}

fn growths_of(alloc: Global, found: &Found, form: Form) -> Result<Vec<u32>, Memory> {
    let mut growths = Vec::new(alloc);
    for steps in &found.steps {
        growths.push(growth_of(form, steps))?;
    }
    Ok(growths)
}

impl Lags {
    fn new(alloc: Global, growths: Vec<u32>, first: usize) -> Result<Lags, Memory> {
        let blocks = growths.len();
        Ok(Lags {
            flushes: vec![in alloc; false; blocks]?,
            lags: vec![in alloc; 0u32; blocks]?,
            behind: vec![in alloc; 0u32; blocks]?,
            growths,
            first,
        })
    }

    fn row_of(&self, block: u32) -> Option<usize> {
        let row = (block as usize).wrapping_sub(self.first);
        if row < self.growths.len() {
            Some(row)
        } else {
            None
        }
    }

    /// By how much the pointer lags behind all blocks that lead to one, if that is the same.
    fn lag_from(&self, sources: &[u32]) -> Option<u32> {
        let mut lag = None;
        for source in sources {
            if let Some(row) = self.row_of(*source) {
                let behind = number_at(&self.behind, row);
                match lag {
                    None => lag = Some(behind),
                    Some(other) => {
                        if other != behind {
                            return None;
                        }
                    }
                }
            }
        }
        match lag {
            None => Some(0),
            Some(lag) => Some(lag),
        }
    }

    fn flush(&mut self, row: usize) -> bool {
        if number_at(&self.behind, row) == 0 || flag_at(&self.flushes, row) {
            return false;
        }
        set_flag(&mut self.flushes, row, true);
        set_number(&mut self.behind, row, 0);
        true
    }

    fn flush_all(&mut self, sources: &[u32]) -> bool {
        let mut changed = false;
        for source in sources {
            if let Some(row) = self.row_of(*source) {
                if self.flush(row) {
                    changed = true;
                }
            }
        }
        changed
    }

    /// By how much it lags as a block begins.
    fn come_to(&mut self, sources: &[u32], bound: bool, row: usize) -> bool {
        let lag = self.lag_from(sources);
        let mut changed = false;
        let now = match lag {
            Some(0) => 0,
            Some(lag) => {
                if bound {
                    changed = self.flush_all(sources);
                    0
                } else {
                    lag
                }
            }
            None => {
                changed = self.flush_all(sources);
                0
            }
        };
        set_number(&mut self.lags, row, now);
        changed
    }

    fn pass(&mut self, row: usize) -> bool {
        let behind = number_at(&self.lags, row).wrapping_add(number_at(&self.growths, row));
        if flag_at(&self.flushes, row) {
            set_number(&mut self.behind, row, 0);
            return false;
        }
        let changed = number_at(&self.behind, row) != behind;
        set_number(&mut self.behind, row, behind);
        if is_near(behind) {
            changed
        } else {
            self.flush(row)
        }
    }

    fn sweep(&mut self, map: &Map) -> bool {
        let mut changed = false;
        for row in 0..self.growths.len() {
            let block = self.first.wrapping_add(row);
            if self.come_to(map.sources_at(block), flag_at(&map.bounds, block), row) {
                changed = true;
            }
            if self.pass(row) {
                changed = true;
            }
        }
        changed
    }

    /// How much is to be added at the end of a block, where the pointer is stepped there.
    pub fn step_at(&self, row: usize) -> u32 {
        if flag_at(&self.flushes, row) {
            number_at(&self.lags, row).wrapping_add(number_at(&self.growths, row))
        } else {
            0
        }
    }
}

/// Where a pointer is stepped in a loop; nothing, where that isn't found in time.
pub fn lags_of(
    alloc: Global,
    map: &Map,
    found: &Found,
    form: Form,
    first: usize,
) -> Result<Option<Lags>, Memory> {
    let mut lags = Lags::new(alloc, growths_of(alloc, found, form)?, first)?;
    for _ in 0..SWEEPS {
        if !lags.sweep(map) {
            return Ok(Some(lags));
        }
    }
    Ok(None)
}
