//! The leaves of a cone, and a bit for each.

ghost use Rattle.std.specs.Prelude.{◌≡◌};
ghost use Rattle.gate_cones.specs.Row.{bit_at, with_bit};

use rtl_bits::Bit;

/// One of the five leaves of a cone.
#[derive(Clone, Copy, Debug, PartialEq, Eq)]
pub enum Leaf {
    L0,
    L1,
    L2,
    L3,
    L4,
}

/// A bit for each leaf.
#[derive(Clone, Copy, Debug, PartialEq, Eq)]
pub struct Row {
    pub l0: Bit,
    pub l1: Bit,
    pub l2: Bit,
    pub l3: Bit,
    pub l4: Bit,
}

impl Row {
    /// The bit at a leaf.
    pub fn bit(self, leaf: Leaf) -> Bit
        ensures value { result ≡ bit_at self leaf }
    {
        match leaf {
            Leaf::L0 => self.l0,
            Leaf::L1 => self.l1,
            Leaf::L2 => self.l2,
            Leaf::L3 => self.l3,
            Leaf::L4 => self.l4,
        }
    }

    /// The row with another bit at a leaf.
    pub(crate) fn with(self, leaf: Leaf, bit: Bit) -> Row
        ensures value { result ≡ with_bit self leaf bit }
    {
        match leaf {
            Leaf::L0 => Row { l0: bit, ..self },
            Leaf::L1 => Row { l1: bit, ..self },
            Leaf::L2 => Row { l2: bit, ..self },
            Leaf::L3 => Row { l3: bit, ..self },
            Leaf::L4 => Row { l4: bit, ..self },
        }
    }
}
