//! Lists of bits as numbers.

ghost use Rattle.std.specs.Prelude.{◌≡◌, ◌≤◌, ◌<◌, ◌*◌, ◌^◌, pos, ◌-ℤ◌, IfOk, SomeIff, length, replicate};
ghost use Rattle.rtl_bits.specs.Numbers.{number_of, bits_of, integer_of, HasNumber};

use crate::bit::Bit;
use crate::memory::Memory;
use crate::numbers::{is_one, low_bit_of, top_of};
use crate::seq::Seq;
use std::alloc::Global;

impl Seq<Bit> {
    /// The list of `width` copies of the bit.
    pub fn filled(alloc: Global, bit: Bit, width: u32) -> Result<Seq<Bit>, Memory>
        ensures value { IfOk result (λ bits. bits ≡ replicate width bit) }
    {
        let mut bits = Seq::make(alloc);
        for _ in 0..width {
            bits.push(bit)?;
        }
        Ok(bits)
    }

    /// The low bits of the number, `width` of them. Above bit 127 they are 0.
    #[tactic(auto, using(crate::proofs::NumberLemmas::bits_of_step))]
    pub fn from_number(alloc: Global, value: u128, width: u32) -> Result<Seq<Bit>, Memory>
        ensures value { IfOk result (λ bits. bits ≡ bits_of value width) }
    {
        let mut bits = Seq::make(alloc);
        let mut rest = value;
        for _ in 0..width {
            bits.push(low_bit_of(rest))?;
            rest /= 2;
        }
        Ok(bits)
    }

    /// The number that the bits stand for. There is none where a bit is unknown, or where there
    /// are more than 128 bits.
    #[tactic(auto, using(crate::proofs::NumberLemmas::digits_read))]
    pub fn unsigned(&self) -> Option<u128>
        ensures value { SomeIff result (HasNumber self.now) (number_of self.now) }
    {
        let bits = self.as_slice();
        if bits.len() > 128 {
            return None;
        }
        let mut number = 0;
        for at in (0..bits.len()).rev() {
            number = match bits[at] {
                Bit::S0 => 2 * number,
                Bit::S1 => 2 * number + 1,
                _ => return None,
            };
        }
        Some(number)
    }

    /// The integer that the bits stand for in two's complement. There is none where a bit is
    /// unknown, where there are more than 128 bits, or where there is no bit.
    #[tactic(auto, using(crate::proofs::NumberLemmas::integers_read))]
    pub fn signed(&self) -> Option<i128>
        ensures value { SomeIff result (HasNumber self.now × (0 < length self.now)) (integer_of self.now) }
    {
        let bits = self.as_slice();
        if bits.is_empty() {
            return None;
        }
        let number = self.unsigned()?;
        if is_one(top_of(bits)) {
            Some(less_power(number, bits.len()))
        } else {
            Some(number as i128)
        }
    }
}

/// The number, less 2 to the width.
#[tactic(auto, using(crate::proofs::NumberLemmas::greatest_of, crate::proofs::NumberLemmas::power_fits))]
fn less_power(number: u128, width: usize) -> i128
    requires width { width ≤ 128 }
    requires within { number < 2 ^ width }
    requires top { 2 ^ width ≤ 2 * number }
    ensures value { result ≡ pos number -ℤ pos (2 ^ width) }
{
    let greatest = u128::MAX >> (128 - width);
    -1 - (greatest - number) as i128
}
