use plan_definition::Home;
use std::alloc::Global;

/// Where pieces are made: the allocator, and where the objects live.
#[derive(Clone, Copy)]
pub struct Scope<'a> {
    pub alloc: Global,
    pub homes: &'a [Home],
}
