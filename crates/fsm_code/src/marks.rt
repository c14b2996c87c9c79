//! Marks of places.

ghost use Rattle.std.specs.Prelude.{◌≡◌, IfOk, false, slice_index_or};
ghost use Rattle.fsm_code.specs.Places.{AreMarks};

use rtl_bits::Memory;
use std::alloc::Global;

/// The cells of a machine, by places of the list of cells.
#[derive(Drop)]
pub(crate) struct Places {
    pub(crate) flop: usize,
    pub(crate) forks: Vec<bool>,
    pub(crate) compares: Vec<bool>,
}

/// These places among so many are marked.
pub(crate) fn marks(alloc: Global, count: usize, places: &[u32]) -> Result<Vec<bool>, Memory>
    ensures value { IfOk result (λ marks. AreMarks count places.now marks.items) }
{
    let mut marks = vec![in alloc; false; count]?;
    for place in places {
        if (*place as usize) < marks.len() {
            marks[*place as usize] = true;
        }
    }
    Ok(marks)
}

/// Whether the place is marked.
pub(crate) fn is_marked(marks: &[bool], at: usize) -> bool
    ensures value { result ≡ slice_index_or marks.now at false }
{
    at < marks.len() && marks[at]
}
