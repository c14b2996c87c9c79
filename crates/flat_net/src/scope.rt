//! A module in its path.

use crate::starts::Starts;
use rtl_ir::Wire;
use std::alloc::Global;

/// A module whose parts are added: the number of its path, its wires, and the start values of their bits.
#[derive(Clone, Copy)]
pub(crate) struct Scope<'a> {
    pub(crate) alloc: Global,
    pub(crate) path: u32,
    pub(crate) wires: &'a [Wire],
    pub(crate) starts: &'a Starts,
}
