//! Combinational gates.

ghost use Rattle.std.specs.Prelude.{◌≡◌, Some};
ghost use Rattle.cell_types.specs.Gate.{gate_of};
ghost use Rattle.cell_types.specs.Kind.{kind_of};

use crate::kind::CellKind;
use crate::names::find_named;

/// A combinational cell of one bit: in the Yosys manual, "Gate-level cells", the section
/// "Combinatorial cells (simple)".
#[derive(Clone, Copy, Debug, PartialEq, Eq)]
pub enum GateKind {
    /// `$_BUF_`: A.
    Buf,
    /// `$_NOT_`: the inverse of A.
    Not,
    /// `$_AND_`: both are 1.
    And,
    /// `$_NAND_`: the inverse of `$_AND_`.
    Nand,
    /// `$_OR_`: one is 1.
    Or,
    /// `$_NOR_`: the inverse of `$_OR_`.
    Nor,
    /// `$_XOR_`: they differ.
    Xor,
    /// `$_XNOR_`: they are equal.
    Xnor,
    /// `$_ANDNOT_`: A and not B.
    AndNot,
    /// `$_ORNOT_`: A or not B.
    OrNot,
    /// `$_MUX_`: A for S 0, B for S 1.
    Mux,
    /// `$_NMUX_`: the inverse of `$_MUX_`.
    Nmux,
}

#[rattlefmt::skip]
const GATES_OF_5: [(&[u8], GateKind); 1] = [
    (b"$_OR_", GateKind::Or),
];

#[rattlefmt::skip]
const GATES_OF_6: [(&[u8], GateKind); 6] = [
    (b"$_BUF_", GateKind::Buf),
    (b"$_NOT_", GateKind::Not),
    (b"$_AND_", GateKind::And),
    (b"$_NOR_", GateKind::Nor),
    (b"$_XOR_", GateKind::Xor),
    (b"$_MUX_", GateKind::Mux),
];

#[rattlefmt::skip]
const GATES_OF_7: [(&[u8], GateKind); 3] = [
    (b"$_NAND_", GateKind::Nand),
    (b"$_XNOR_", GateKind::Xnor),
    (b"$_NMUX_", GateKind::Nmux),
];

#[rattlefmt::skip]
const GATES_OF_8: [(&[u8], GateKind); 1] = [
    (b"$_ORNOT_", GateKind::OrNot),
];

#[rattlefmt::skip]
const GATES_OF_9: [(&[u8], GateKind); 1] = [
    (b"$_ANDNOT_", GateKind::AndNot),
];

/// The gate of this name.
pub(crate) fn gate_named(name: &[u8]) -> Option<GateKind>
    ensures value { result ≡ gate_of name.now }
{
    match name.len() {
        5 => find_named(&GATES_OF_5, name),
        6 => find_named(&GATES_OF_6, name),
        7 => find_named(&GATES_OF_7, name),
        8 => find_named(&GATES_OF_8, name),
        9 => find_named(&GATES_OF_9, name),
        _ => None,
    }
}

impl GateKind {
    /// The name of the cell.
    pub fn name(self) -> &'static [u8]
        ensures value { kind_of result.now ≡ Some (CellKind.Gate self) }
    {
        match self {
            GateKind::Buf => b"$_BUF_",
            GateKind::Not => b"$_NOT_",
            GateKind::And => b"$_AND_",
            GateKind::Nand => b"$_NAND_",
            GateKind::Or => b"$_OR_",
            GateKind::Nor => b"$_NOR_",
            GateKind::Xor => b"$_XOR_",
            GateKind::Xnor => b"$_XNOR_",
            GateKind::AndNot => b"$_ANDNOT_",
            GateKind::OrNot => b"$_ORNOT_",
            GateKind::Mux => b"$_MUX_",
            GateKind::Nmux => b"$_NMUX_",
        }
    }
}
