ghost use Rattle.high_ir.specs.Formed.{IsHigh};
ghost use Rattle.high_ir.specs.View.{program};

use super::object::Object;
use super::statement::Statement;

/// A function. Its frame has the values that it is called with, and then `locals` variables that are
/// unwritten at each call. It ends by a `Return`.
#[derive(Drop)]
pub struct Function {
    /// How many values it takes.
    pub values: u32,
    /// How many arrays it takes.
    pub arrays: u32,
    pub locals: u32,
    /// The rank is above that of each function that it calls.
    pub rank: u32,
    pub body: Statement,
}

/// A program in the high form. The function of number f begins with the mark of number f, its opening
/// mark, which stands nowhere else; the loops are numbered in the order in which they stand.
#[derive(Drop)]
pub struct High {
    pub functions: Vec<Function>,
    pub objects: Vec<Object>,
    /// The number of the function that is run.
    pub main: u32,
    /// The number of all marks, the opening marks included.
    pub marks: u32,
    pub loops: u32,
    ghost is_high: { IsHigh (program functions.items objects.items main marks loops) },
}
