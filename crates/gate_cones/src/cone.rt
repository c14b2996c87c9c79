//! Cones, and what they give for a row of bits at their leaves.

ghost use Rattle.std.specs.Prelude.{◌≡◌};
ghost use Rattle.cell_gate.specs.Gates.{output_of};
ghost use Rattle.gate_cones.specs.Cone.{cone_value};

use crate::row::{Leaf, Row};
use cell_gate::gate_value;
use cell_types::{CellKind, GateKind};
use rtl_bits::Bit;

/// A tree of combinational gates. A gate has a cone for each of its first pins, in the order A, B, S; a pin
/// that is left out is x.
#[derive(Drop)]
pub enum Cone {
    /// The bit at a leaf.
    At(Leaf),
    /// A constant.
    Fixed(Bit),
    /// A gate with its pin A.
    One(GateKind, Box<Cone>),
    /// A gate with its pins A and B.
    Two(GateKind, Box<Cone>, Box<Cone>),
    /// A gate with its pins A, B and S.
    Three(GateKind, Box<Cone>, Box<Cone>, Box<Cone>),
}

impl Cone {
    /// What the cone gives for a row of bits at its leaves, in time linear in its gates.
    pub fn value(&self, row: Row) -> Bit
        ensures value { result ≡ cone_value self.now row }
    {
        match self {
            Cone::At(leaf) => row.bit(*leaf),
            Cone::Fixed(bit) => *bit,
            Cone::One(kind, a) => output(*kind, a.value(row), Bit::X, Bit::X),
            Cone::Two(kind, a, b) => output(*kind, a.value(row), b.value(row), Bit::X),
            Cone::Three(kind, a, b, s) => {
                output(*kind, a.value(row), b.value(row), s.value(row))
            }
        }
    }
}

/// What a gate gives for the bits at its pins A, B and S.
fn output(kind: GateKind, a: Bit, b: Bit, s: Bit) -> Bit
    ensures value { result ≡ output_of kind a b s }
{
    gate_value(CellKind::Gate(kind), a, b, s)
}
