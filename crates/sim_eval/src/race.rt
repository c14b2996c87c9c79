//! The race of a clock and a reset.

ghost use Rattle.std.specs.Prelude.{◌≡◌, ◌∷◌, ◌++◌, List, [], None};
ghost use Rattle.rtl_bits.specs.declared.bit.Bit.{Bit};
ghost use Rattle.net_model.specs.Race.{raced_of, unless_certain, unless_impossible};
ghost use Rattle.sim_eval.specs.Race.{common_option};

use rtl_bits::{Bit, bit_or, merge};

/// What two edges make of a bit: the merge of the values that count. Those with the reset as it was and as it is count
/// unless the clock's edge is impossible, that with the reset active unless the reset's edge is impossible, and the old
/// one
/// unless an edge is certain.
pub(crate) fn raced_of(
    clock_edge: Bit,
    reset_edge: Bit,
    was: Bit,
    is: Bit,
    active: Bit,
    old: Bit,
) -> Bit
    ensures value { result ≡ raced_of clock_edge reset_edge was is active old }
{
    let common = unless_certain(bit_or(clock_edge, reset_edge), old);
    let common = unless_impossible(reset_edge, active, common);
    let common = unless_impossible(clock_edge, is, common);
    let common = unless_impossible(clock_edge, was, common);
    common.unwrap_or(Bit::X)
}

/// The bit, unless an edge is certain.
fn unless_certain(edge: Bit, bit: Bit) -> Option<Bit>
    ensures value { result ≡ common_option (unless_certain edge (bit ∷ [])) }
{
    match edge {
        Bit::S1 => None,
        _ => Some(bit.seen()),
    }
}

/// What the bit has in common with those behind it, where there are any; the bit does not count where the edge is
/// impossible.
fn unless_impossible(edge: Bit, bit: Bit, common: Option<Bit>) -> Option<Bit>
    ensures value { (bits : List Bit) → common ≡ common_option bits →
        result ≡ common_option (unless_impossible edge (bit ∷ []) ++ bits) }
{
    match (edge, common) {
        (Bit::S0, _) => common,
        (_, Some(common)) => Some(merge(bit, common)),
        (_, None) => Some(bit.seen()),
    }
}
