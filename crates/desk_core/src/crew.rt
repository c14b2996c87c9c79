//! What the workers of a desk need.

use std::alloc::Global;

/// What a crew is run with: the runtime of its threads, the memory, and what its workers call before and after each
/// job.
#[derive_where(Clone, Copy)]
pub struct Crew<'a, R, G> {
    pub rt: &'a R,
    pub alloc: Global,
    pub gate: &'a G,
}
