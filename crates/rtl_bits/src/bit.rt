//! The six values of a bit, and the functions of one, two and three of them.

ghost use Rattle.std.specs.Prelude.{◌≡◌, ◌↔◌, IsTrue};
ghost use Rattle.rtl_bits.specs.Knowledge.{IsKnown, is_known};
ghost use Rattle.rtl_bits.specs.Tables.{seen_of, merge_of, not_of, and_of, or_of, xor_of, mux_of};

/// A bit as a text writes it: `0`, `1`, `x`, `z`, `m` or `-`.
///
/// Only `S0` and `S1` are known. `M` is a marked bit, and `Dash` is the pattern that matches
/// anything; both count as unknown.
#[derive(Clone, Copy, Debug, PartialEq, Eq)]
pub enum Bit {
    S0,
    S1,
    X,
    Z,
    M,
    Dash,
}

impl Bit {
    /// Whether the bit is 0 or 1.
    pub fn known(self) -> bool
        ensures known { IsTrue result ↔ IsKnown self }
        ensures value { result ≡ is_known self }
    {
        match self {
            Bit::S0 | Bit::S1 => true,
            Bit::X | Bit::Z | Bit::M | Bit::Dash => false,
        }
    }

    /// The bit as a cell reads it: every unknown bit is x.
    pub fn seen(self) -> Bit
        ensures value { result ≡ seen_of self }
    {
        match self {
            Bit::S0 => Bit::S0,
            Bit::S1 => Bit::S1,
            _ => Bit::X,
        }
    }
}

/// What two bits have in common: the common known bit, else x. It answers x for `z` and `z` too.
pub fn merge(a: Bit, b: Bit) -> Bit
    ensures value { result ≡ merge_of a b }
{
    if a == b { a.seen() } else { Bit::X }
}

/// The inverse, x for an unknown bit.
pub fn bit_not(a: Bit) -> Bit
    ensures value { result ≡ not_of a }
{
    match a {
        Bit::S0 => Bit::S1,
        Bit::S1 => Bit::S0,
        _ => Bit::X,
    }
}

/// 0 where one is 0, 1 where both are 1, else x.
pub fn bit_and(a: Bit, b: Bit) -> Bit
    ensures value { result ≡ and_of a b }
{
    match (a, b) {
        (Bit::S0, _) => Bit::S0,
        (_, Bit::S0) => Bit::S0,
        (Bit::S1, Bit::S1) => Bit::S1,
        _ => Bit::X,
    }
}

/// 1 where one is 1, 0 where both are 0, else x.
pub fn bit_or(a: Bit, b: Bit) -> Bit
    ensures value { result ≡ or_of a b }
{
    match (a, b) {
        (Bit::S1, _) => Bit::S1,
        (_, Bit::S1) => Bit::S1,
        (Bit::S0, Bit::S0) => Bit::S0,
        _ => Bit::X,
    }
}

/// 1 where known bits differ, 0 where they are equal, x where one is unknown.
pub fn bit_xor(a: Bit, b: Bit) -> Bit
    ensures value { result ≡ xor_of a b }
{
    match (a, b) {
        (Bit::S0, Bit::S0) => Bit::S0,
        (Bit::S0, Bit::S1) => Bit::S1,
        (Bit::S1, Bit::S0) => Bit::S1,
        (Bit::S1, Bit::S1) => Bit::S0,
        _ => Bit::X,
    }
}

/// A multiplexer: `a` where `s` is 0, `b` where it is 1, and for an unknown `s` what the two have
/// in common. An unknown bit that is chosen is given as x.
pub fn bit_mux(a: Bit, b: Bit, s: Bit) -> Bit
    ensures value { result ≡ mux_of a b s }
{
    match s {
        Bit::S0 => a.seen(),
        Bit::S1 => b.seen(),
        _ => merge(a, b),
    }
}
