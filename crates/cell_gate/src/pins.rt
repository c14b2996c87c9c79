//! The pins of a storage bit.

use rtl_bits::Bit;

/// A bit for each pin of one bit of a storage cell. A pin that the cell lacks is not read; give it x.
#[derive(Clone, Copy, Debug, PartialEq, Eq)]
pub struct Pins {
    /// The clock.
    pub clk: Bit,
    /// The enable of a register, or the gate of a latch.
    pub en: Bit,
    /// The asynchronous reset.
    pub arst: Bit,
    /// The synchronous reset.
    pub srst: Bit,
    /// The asynchronous load.
    pub aload: Bit,
    /// The data of the asynchronous load.
    pub ad: Bit,
    /// The set of this bit.
    pub set: Bit,
    /// The clear of this bit.
    pub clr: Bit,
    /// The data.
    pub d: Bit,
    /// The output.
    pub q: Bit,
}
