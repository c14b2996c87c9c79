//! Fields of rows: words, and bits by their letters.

use rtl_bits::{Bit, Bits, Memory, Text};
use std::alloc::Global;
use std::str::from_utf8;

/// The field as a text; one that is none is empty.
pub fn str_of(field: &[u8]) -> &str {
    from_utf8(field).unwrap_or("")
}

/// The letter of a bit.
pub fn letter(bit: Bit) -> u8 {
    match bit {
        Bit::S0 => b'0',
        Bit::S1 => b'1',
        Bit::X => b'x',
        Bit::Z => b'z',
        Bit::M => b'm',
        Bit::Dash => b'-',
    }
}

/// The bit of a letter; any other letter is an unknown bit.
pub fn bit_of(letter: u8) -> Bit {
    match letter {
        b'0' => Bit::S0,
        b'1' => Bit::S1,
        b'z' => Bit::Z,
        b'm' => Bit::M,
        b'-' => Bit::Dash,
        _ => Bit::X,
    }
}

/// The bits of a field with the most significant letter first.
pub fn bits_of(alloc: Global, field: &[u8]) -> Result<Bits, Memory> {
    let mut bits = Bits::make(alloc);
    for letter in field.iter().rev() {
        bits.push(bit_of(*letter))?;
    }
    Ok(bits)
}

/// The letters of bits, the most significant first.
pub fn spelled(alloc: Global, bits: &[Bit]) -> Result<Text, Memory> {
    let mut text = Text::make(alloc);
    for bit in bits.iter().rev() {
        text.push(letter(*bit))?;
    }
    Ok(text)
}
