//! Combinational gates.

ghost use Rattle.std.specs.Prelude.{◌≡◌};
ghost use Rattle.cell_gate.specs.Gates.{output_of, IsGate, gate_value_of};

use cell_types::{CellKind, GateKind};
use rtl_bits::{Bit, bit_and, bit_mux, bit_not, bit_or, bit_xor};

/// The value of a combinational gate for the bits at its pins A, B and S. A pin that it lacks is not
/// read. In the Yosys manual, "Gate-level cells", the section "Combinatorial cells (simple)".
pub fn gate_value(kind: CellKind, a: Bit, b: Bit, s: Bit) -> Bit
    requires combinational { IsGate kind }
    ensures value { result ≡ gate_value_of kind a b s }
{
    match kind {
        CellKind::Gate(gate) => output(gate, a, b, s),
        _ => unreachable!(),
    }
}

/// What the gate gives for the bits at its pins A, B and S. A pin that it lacks is not read.
fn output(kind: GateKind, a: Bit, b: Bit, s: Bit) -> Bit
    ensures value { result ≡ output_of kind a b s }
{
    match kind {
        GateKind::Buf => a.seen(),
        GateKind::Not => bit_not(a),
        GateKind::And => bit_and(a, b),
        GateKind::Nand => bit_not(bit_and(a, b)),
        GateKind::Or => bit_or(a, b),
        GateKind::Nor => bit_not(bit_or(a, b)),
        GateKind::Xor => bit_xor(a, b),
        GateKind::Xnor => bit_not(bit_xor(a, b)),
        GateKind::AndNot => bit_and(a, bit_not(b)),
        GateKind::OrNot => bit_or(a, bit_not(b)),
        GateKind::Mux => bit_mux(a, b, s),
        GateKind::Nmux => bit_not(bit_mux(a, b, s)),
    }
}
