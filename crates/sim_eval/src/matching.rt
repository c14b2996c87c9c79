//! Whether signals match patterns: 1 where they do, 0 where they do not, else x.

ghost use Rattle.std.specs.Prelude.{◌≡◌};
ghost use Rattle.sim_eval.specs.Trees.{branch_match, number_case_match, number_pattern_match, number_place_match};

use crate::values::read;
use flat_net::Point;
use rtl_bits::{Bit, Seq, bit_and, bit_not, bit_or, bit_xor};

/// Whether a branch with these patterns takes the signal; without patterns it does.
pub(crate) fn branch_match(values: &[Bit], signal: &[Bit], patterns: &[Seq<Point>]) -> Bit
    ensures value { result ≡ branch_match values.now signal.now patterns.now }
{
    if patterns.is_empty() {
        Bit::S1
    } else {
        case_match(values, signal, patterns)
    }
}

/// Whether the signal matches one of the patterns.
fn case_match(values: &[Bit], signal: &[Bit], patterns: &[Seq<Point>]) -> Bit
    ensures value { result ≡ number_case_match values.now signal.now patterns.now }
{
    let mut one = Bit::S0;
    for at in (0..patterns.len()).rev() {
        one = bit_or(pattern_match(values, signal, patterns[at].as_slice()), one);
    }
    one
}

/// Whether the signal matches the pattern, as far as both go.
fn pattern_match(values: &[Bit], signal: &[Bit], pattern: &[Point]) -> Bit
    ensures value { result ≡ number_pattern_match values.now signal.now pattern.now }
{
    let mut all = Bit::S1;
    for at in (0..signal.len().min(pattern.len())).rev() {
        all = bit_and(place_match(values, signal[at], pattern[at]), all);
    }
    all
}

/// Whether a bit matches a place of a pattern. An unknown constant there matches anything.
fn place_match(values: &[Bit], bit: Bit, place: Point) -> Bit
    ensures value { result ≡ number_place_match values.now bit place }
{
    match place {
        Point::Constant(wanted) if !wanted.known() => Bit::S1,
        _ => bit_not(bit_xor(bit, read(values, place))),
    }
}
