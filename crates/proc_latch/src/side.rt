//! The two ways in which leaves are read.

ghost use Rattle.std.specs.Prelude.{◌≡◌};
ghost use Rattle.net_model.specs.Proc.Latch.{missing_leaf, other_leaf, own_leaf};
ghost use Rattle.proc_latch.specs.Sides.{side_of};

use rtl_bits::Bit;
use rtl_sig::SigBit;

/// How the leaves of the value of a bit are read.
#[derive(Clone, Copy)]
pub(crate) enum Side {
    /// For the data of a latch: where the bit itself stands it is x.
    Data,
    /// For the enable of a latch: it is 0 where the bit itself stands, and 1 at every other leaf.
    Enable,
}

impl Side {
    /// What stands for the bit itself.
    pub(crate) fn own_leaf(self) -> SigBit
        ensures value { result ≡ own_leaf (side_of self) }
    {
        match self {
            Side::Data => SigBit::Fixed(Bit::X),
            Side::Enable => SigBit::Fixed(Bit::S0),
        }
    }

    /// What stands for another leaf.
    pub(crate) fn other_leaf(self, leaf: SigBit) -> SigBit
        ensures value { result ≡ other_leaf (side_of self) leaf }
    {
        match self {
            Side::Data => leaf,
            Side::Enable => SigBit::Fixed(Bit::S1),
        }
    }

    /// What stands for a missing value.
    pub(crate) fn missing_leaf(self) -> SigBit
        ensures value { result ≡ missing_leaf (side_of self) }
    {
        match self {
            Side::Data => SigBit::Fixed(Bit::X),
            Side::Enable => SigBit::Fixed(Bit::S1),
        }
    }
}
