//! The digits of lines.

ghost use Rattle.std.specs.Prelude.{◌≡◌};
ghost use Rattle.sim_text.specs.Digits.{bit_of, digit_of, is_digit};

use rtl_bits::Bit;

/// The digit of a bit. Every unknown bit but z is written as x.
pub fn digit_of(bit: Bit) -> u8
    ensures value { result ≡ digit_of bit }
{
    match bit {
        Bit::S0 => b'0',
        Bit::S1 => b'1',
        Bit::Z => b'z',
        Bit::X | Bit::M | Bit::Dash => b'x',
    }
}

/// Whether the byte is one of the digits.
#[tactic(auto, unfolding(crate::specs::Digits::is_digit))]
pub fn is_digit(byte: u8) -> bool
    ensures value { result ≡ is_digit byte }
{
    matches!(byte, b'0' | b'1' | b'x' | b'z')
}

/// The bit of a digit.
#[tactic(auto, unfolding(crate::specs::Digits::bit_of))]
pub fn bit_of(digit: u8) -> Bit
    ensures value { result ≡ bit_of digit }
{
    match digit {
        b'0' => Bit::S0,
        b'1' => Bit::S1,
        b'z' => Bit::Z,
        _ => Bit::X,
    }
}
