//! What reads a bit.

use crate::driver::CellPin;

/// What reads a bit of a wire in its module.
#[derive(Clone, Copy, Debug, PartialEq, Eq)]
pub enum Reader {
    /// A place of a pin that its cell does not drive.
    Cell(CellPin),
    /// The connection at this place, whose right side has the bit.
    Link(u64),
}
