//! Controls of storage cells: levels, edges, and what they choose.

ghost use Rattle.std.specs.Prelude.{◌≡◌, ◌↔◌};
ghost use Rattle.cell_gate.specs.Control.{active_of, pick_of, edge_of, was_of, IsCertain, IsImpossible};

use cell_types::Level;
use rtl_bits::{Bit, bit_and, bit_mux, bit_not};

/// Whether a pin has the level at which it acts; x where that is open.
pub fn active(level: Level, bit: Bit) -> Bit
    ensures value { result ≡ active_of level bit }
{
    match level {
        Level::High => bit.seen(),
        Level::Low => bit_not(bit),
    }
}

/// `a` where a control is active, `b` where it is not, and where that is open what the two have in
/// common.
pub fn pick(control: Bit, a: Bit, b: Bit) -> Bit
    ensures value { result ≡ pick_of control a b }
{
    bit_mux(b, a, control)
}

/// A clock edge, of whether the clock was active and whether it is: 1 where it is certain, 0 where
/// it is impossible, x where it is open.
#[tactic(auto, using(crate::proofs::Edges::certain_iff, crate::proofs::Edges::impossible_iff))]
pub fn edge(was: Bit, is: Bit) -> Bit
    ensures value { result ≡ edge_of was is }
    ensures certain { result ≡ Bit.S1 ↔ IsCertain was is }
    ensures impossible { result ≡ Bit.S0 ↔ IsImpossible was is }
{
    bit_and(bit_not(was), is)
}

/// The clock of the step before, which is not known in the first step.
pub fn clock_before(first: bool, clk: Bit) -> Bit
    ensures value { result ≡ was_of first clk }
{
    if first { Bit::X } else { clk }
}
