/// The number of a loop from 0 on, in the source and in the plan.
#[derive(Clone, Copy)]
pub struct Renumbered {
    pub old: u32,
    pub new: u32,
}
