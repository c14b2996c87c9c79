//! The numbers that lists of bits stand for.

ghost use Rattle.std.specs.Prelude.{◌≡◌, ◌+◌, ◌^◌, min, nat_lt};
ghost use Rattle.rtl_bits.specs.Numbers.{number_of};
ghost use Rattle.cell_types.specs.Number.{digit_at};

use rtl_bits::Bit;

/// Every number from this one on is read as this one.
pub(crate) const MANY: u128 = 1 << 64;

/// The number that known bits stand for, or `MANY` where it is greater.
pub(crate) fn number(bits: &[Bit]) -> u128
    ensures value { result ≡ min (number_of bits.now) (2 ^ 64) }
{
    let mut at = bits.len();
    let mut number: u128 = 0;
    while at > 0 {
        at -= 1;
        number = (2 * number + digit(bits, at)).min(MANY);
    }
    number
}

/// Whether a number is less than the sum of two others, however many bits they have.
#[tactic(auto, using(crate::proofs::NumberLemmas::number_of_drop))]
pub(crate) fn is_passed(bound: &[Bit], low: &[Bit], more: &[Bit]) -> bool
    ensures value { result ≡ nat_lt (number_of bound.now) (number_of low.now + number_of more.now) }
{
    let mut at = bound.len().max(low.len()).max(more.len());
    // One more than the bound has over the sum, of the bits from `at` on; 3 and more go on alike.
    let mut room: u128 = 1;
    while at > 0 {
        at -= 1;
        let taken = digit(low, at) + digit(more, at);
        room = (2 * room + digit(bound, at))
            .saturating_sub(1 + taken)
            .min(3);
    }
    room == 0
}

fn digit(bits: &[Bit], at: usize) -> u128
    ensures value { result ≡ digit_at bits.now at }
{
    match bits.get(at).copied().unwrap_or(Bit::S0) {
        Bit::S1 => 1,
        _ => 0,
    }
}
