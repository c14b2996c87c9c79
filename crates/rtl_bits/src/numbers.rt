//! The numbers that bits stand for.

ghost use Rattle.std.specs.Prelude.{◌≡◌, ◌≤◌, ◌<◌, ◌^◌, SomeIff};
ghost use Rattle.rtl_bits.specs.Numbers.{digit_of, is_one, low_bit_of, number_of, top_of};

use crate::bit::Bit;

/// What a bit adds at its place: 1 for the bit 1, else nothing.
pub fn digit_of(bit: Bit) -> u8
    ensures value { result ≡ digit_of bit }
    ensures small { result ≤ 1 }
{
    match bit {
        Bit::S1 => 1,
        _ => 0,
    }
}

/// Whether the bit is 1.
pub fn is_one(bit: Bit) -> bool
    ensures value { result ≡ is_one bit }
{
    matches!(bit, Bit::S1)
}

/// The lowest bit of a number: 1 where it is odd, else 0.
pub fn low_bit_of(number: u128) -> Bit
    ensures value { result ≡ low_bit_of number }
{
    if number % 2 == 1 { Bit::S1 } else { Bit::S0 }
}

/// The most significant bit, 0 where there is none.
#[tactic(auto, using(crate::proofs::NumberLemmas::top_of_last))]
pub fn top_of(bits: &[Bit]) -> Bit
    ensures value { result ≡ top_of bits.now }
{
    if bits.is_empty() {
        Bit::S0
    } else {
        bits[bits.len() - 1]
    }
}

/// The number that the bits stand for, where an unknown bit adds nothing. There is none where it is 2^64 or more.
#[tactic(auto, using(crate::proofs::NumberLemmas::drop_here, crate::proofs::NumberLemmas::number_of_drop))]
pub fn number_of(bits: &[Bit]) -> Option<u64>
    ensures value { SomeIff result (number_of bits.now < 2 ^ 64) (number_of bits.now) }
{
    let mut number = 0;
    for at in (0..bits.len()).rev() {
        if number >= 1 << 63 {
            return None;
        }
        number = 2 * number + u64::from(digit_of(bits[at]));
    }
    Some(number)
}
