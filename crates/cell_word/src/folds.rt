//! The cells that make one bit of all bits of a word or of two.

ghost use Rattle.std.specs.Prelude.{◌≡◌};
ghost use Rattle.cell_word.specs.Folds.{all_of, any_of, equal_of, equality_of, folded_of, logic_of, odd_of};

use crate::words::{at_or, fill};
use cell_types::{EqualKind, FoldKind, LogicKind};
use rtl_bits::{Bit, bit_and, bit_not, bit_or, bit_xor};

fn all(bits: &[Bit]) -> Bit
    ensures value { result ≡ all_of bits.now }
{
    bits.iter().fold(Bit::S1, |all, bit| bit_and(all, *bit))
}

fn any(bits: &[Bit]) -> Bit
    ensures value { result ≡ any_of bits.now }
{
    bits.iter().fold(Bit::S0, |any, bit| bit_or(any, *bit))
}

fn odd(bits: &[Bit]) -> Bit
    ensures value { result ≡ odd_of bits.now }
{
    bits.iter().fold(Bit::S0, |odd, bit| bit_xor(odd, *bit))
}

/// The bit that the kind makes of a word.
pub(crate) fn folded(kind: FoldKind, a: &[Bit]) -> Bit
    ensures value { result ≡ folded_of kind a.now }
{
    match kind {
        FoldKind::And => all(a),
        FoldKind::Or => any(a),
        FoldKind::Xor => odd(a),
        FoldKind::Xnor => bit_not(odd(a)),
        FoldKind::Bool => any(a),
        FoldKind::LogicNot => bit_not(any(a)),
    }
}

/// The bit that the kind makes of two words, each of which counts as true where one bit is 1.
pub(crate) fn logic(kind: LogicKind, a: &[Bit], b: &[Bit]) -> Bit
    ensures value { result ≡ logic_of kind a.now b.now }
{
    match kind {
        LogicKind::And => bit_and(any(a), any(b)),
        LogicKind::Or => bit_or(any(a), any(b)),
    }
}

/// Whether two words agree at all places, extended to the greater width.
#[tactic(auto, using(crate::proofs::Places::fold_word_next))]
fn equal(signed: bool, a: &[Bit], b: &[Bit]) -> Bit
    ensures value { result ≡ equal_of signed a.now b.now }
{
    let a_fill = fill(signed, a);
    let b_fill = fill(signed, b);
    let mut equal = Bit::S1;
    for at in 0..a.len().max(b.len()) {
        let differ = bit_xor(at_or(a, at, a_fill), at_or(b, at, b_fill));
        equal = bit_and(equal, bit_not(differ));
    }
    equal
}

/// Whether two words are equal, or whether they are not.
pub(crate) fn equality(kind: EqualKind, signed: bool, a: &[Bit], b: &[Bit]) -> Bit
    ensures value { result ≡ equality_of kind signed a.now b.now }
{
    match kind {
        EqualKind::Eq => equal(signed, a, b),
        EqualKind::Ne => bit_not(equal(signed, a, b)),
    }
}
