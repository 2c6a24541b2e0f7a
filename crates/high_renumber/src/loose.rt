use high_ir::Function;
use high_ir::object::Object;

/// A program whose marks and loops have the numbers of those that they are copies of, in a program of so many marks and
/// loops.
#[derive(Drop)]
pub struct Loose {
    pub functions: Vec<Function>,
    pub objects: Vec<Object>,
    pub main: u32,
    pub marks: u32,
    pub loops: u32,
}
