//! Whether one cone may stand in the place of another.

ghost use Rattle.std.specs.Prelude.{◌≡◌, ◌↔◌, IsTrue};
ghost use Rattle.gate_cones.specs.Below.{IsBelow, below_over, bit_below};

use crate::cone::Cone;
use crate::row::{Leaf, Row};
use rtl_bits::Bit;

const LEAVES: [Leaf; 5] = [Leaf::L0, Leaf::L1, Leaf::L2, Leaf::L3, Leaf::L4];

const UNKNOWN: Row = Row {
    l0: Bit::X,
    l1: Bit::X,
    l2: Bit::X,
    l3: Bit::X,
    l4: Bit::X,
};

/// Whether the second cone says no less than the first: in each of the 243 rows of 0, 1 and x at the leaves it
/// gives what the first gives, or that is x. The time is that of 243 values of each cone; no memory is taken.
#[tactic(auto, using(crate::proofs::Exact::below_exact))]
pub fn cone_below(first: &Cone, second: &Cone) -> bool
    ensures exact { IsTrue result ↔ IsBelow first.now second.now }
{
    below_over(&LEAVES, UNKNOWN, first, second)
}

/// Whether that is so in each row that gives these leaves 0, 1 or x, and the others the bits of a row.
fn below_over(open: &[Leaf], row: Row, first: &Cone, second: &Cone) -> bool
    ensures value { result ≡ below_over open.now row first.now second.now }
{
    match open {
        [] => bit_below(first.value(row), second.value(row)),
        [leaf, rest @ ..] => {
            below_over(rest, row.with(*leaf, Bit::S0), first, second)
                && below_over(rest, row.with(*leaf, Bit::S1), first, second)
                && below_over(rest, row.with(*leaf, Bit::X), first, second)
        }
    }
}

/// Whether a bit says no more than another one.
fn bit_below(low: Bit, high: Bit) -> bool
    ensures value { result ≡ bit_below low high }
{
    match (low, high) {
        (Bit::S0, Bit::S0) | (Bit::S1, Bit::S1) => true,
        (Bit::S0 | Bit::S1, _) => false,
        _ => true,
    }
}
