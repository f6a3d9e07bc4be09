//! Who works.
use std::alloc::Global;

/// So many workers, what their threads are made by, and who is told of their work.
#[derive(Drop)]
pub struct Workers<'a, R, G> {
    pub threads: &'a R,
    pub alloc: Global,
    /// How many there are: 0 counts as one, and more than 64 as 64.
    pub count: u32,
    pub gate: &'a G,
}
