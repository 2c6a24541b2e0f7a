/// What is used of the budgets of a program, and the next variable of a function.
#[derive(Clone, Copy)]
pub struct Used {
    pub next: u32,
    pub operations: u32,
    pub bytes: u64,
}
