//! Integers of at most 128 bits, by sign and size.

ghost use Rattle.std.specs.Prelude.{◌≡◌, false, ◌<◌, ◌≤◌, IfOk, MatchOption, length, ℕ, ℤ};
ghost use Rattle.rtl_bits.specs.Knowledge.{all_known};
ghost use Rattle.rtl_bits.specs.Numbers.{bits_of};
ghost use Rattle.cell_word.specs.Integers.{integer_bits};
ghost use Rattle.cell_word.specs.Sizes.{IsRead, StandsFor};

use rtl_bits::{Bits, Memory};
use std::alloc::Global;

/// An integer by its sign and its size.
#[derive(Clone, Copy, Debug, PartialEq, Eq)]
pub(crate) struct Integer {
    pub(crate) negative: bool,
    pub(crate) size: u128,
}

/// The integer that known bits stand for, in two's complement where they are signed.
#[tactic(auto, using(crate::proofs::Operands::number_unless, crate::proofs::Operands::number_if, crate::proofs::Operands::read_empty))]
pub(crate) fn read_integer(signed: bool, bits: &Bits) -> Option<Integer>
    requires width { length bits.now ≤ 128 }
    ensures value { MatchOption result (all_known bits.now ≡ false) (IsRead signed bits.now) }
{
    if bits.as_slice().is_empty() {
        return Some(Integer {
            negative: false,
            size: 0,
        });
    }
    if signed {
        let integer = bits.signed()?;
        Some(Integer {
            negative: integer < 0,
            size: integer.unsigned_abs(),
        })
    } else {
        let size = bits.unsigned()?;
        Some(Integer {
            negative: false,
            size,
        })
    }
}

/// The low bits of the integers that have this sign and, but for multiples of 2 to the 128, this
/// size.
pub(crate) fn bits_of(alloc: Global, integer: Integer, width: u32) -> Result<Bits, Memory>
    requires width { width ≤ 128 }
    ensures value { IfOk result (λ bits. (z : ℤ) → StandsFor integer z → bits ≡ integer_bits z width) }
{
    Bits::from_number(alloc, low_number(integer), width)
}

/// The number whose bits are those of the integer in two's complement.
#[tactic(auto, using(crate::proofs::Signs::low_of_positive))]
fn low_number(integer: Integer) -> u128
    ensures value { (z : ℤ) (width : ℕ) → StandsFor integer z → width ≤ 128 →
        bits_of result width ≡ integer_bits z width }
{
    if integer.negative {
        0u128.wrapping_sub(integer.size)
    } else {
        integer.size
    }
}
