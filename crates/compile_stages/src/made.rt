// A source from its plan to its image.
use high_ir::Carried;
use image_memory::Placement;
use layout_program::Laid;
use low_ir::LowReg;

/// A source in the high form: programs, each with what became in it of the marks and loops of the source.
#[derive(Drop)]
pub struct Stages {
    /// The plan, and what each pass but the last one made of the program before it.
    pub before: Vec<Carried>,
    /// What the last pass made, or the plan where no pass has run.
    pub last: Carried,
}

/// A source in the low form.
#[derive(Drop)]
pub struct Lowered {
    pub stages: Stages,
    /// The last program, over its places.
    pub code: LowReg,
}

/// A source in memory, and what it was on the way.
#[derive(Drop)]
pub struct Made {
    pub stages: Stages,
    pub code: LowReg,
    /// Which of its functions and arrays lie in the scratchpad.
    pub placement: Placement,
    pub laid: Laid,
}
