// What stands in a list of what may be moved.

use rv_core::Region;
use wcc_base::Items;

/// The code of a function, or an array.
#[derive(Drop)]
pub struct LaidItem {
    /// The number of the function; arrays have the numbers behind those of functions.
    pub id: u32,
    /// In bytes, the same whatever is placed; it never takes more.
    pub size: u32,
    pub code: bool,
    /// Where it lies.
    pub region: Region,
    /// The addresses of its instructions, or of the loads and stores that touch this array alone.
    pub at: Items<u32>,
}
