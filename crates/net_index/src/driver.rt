//! What drives a bit.

use rtl_sig::SigBit;

/// A place of a cell's pin: the places of the cell and of the pin in their lists, and the bit of the pin's signal.
#[derive(Clone, Copy, Debug, PartialEq, Eq)]
pub struct CellPin {
    pub cell: u32,
    pub pin: u64,
    pub at: u32,
}

/// What drives a bit of a wire in its module. Of several the first of these counts, and within one of them the first
/// in the order of its list, there the one of the lowest pin and place.
#[derive(Clone, Copy, Debug, PartialEq, Eq)]
pub enum Driver {
    /// No driver.
    Nothing,
    /// The outside, by an input port.
    Port,
    /// An output pin of a cell.
    Cell(CellPin),
    /// The other side of a connection.
    Link(SigBit),
    /// The tree of the process at this place.
    Tree(u64),
    /// The rules of the process at this place.
    Sync(u64),
}
