//! Constants.

ghost use Rattle.std.specs.Prelude.{◌≡◌, ◌++◌, OnOk};
ghost use Rattle.std.specs.Fmt.{decimal, signed_decimal};
ghost use Rattle.rtl_write.specs.Constant.{bit_letter, letters_of, bits_text, escaped, string_text, value_text};

use rtl_bits::{Bit, Memory, Text};
use rtl_ir::Value;

/// Writes the number.
pub fn put_number(out: &mut Text, number: u64) -> Result<(), Memory>
    ensures ok { OnOk result (out.new ≡ out.old ++ decimal number) }
{
    let digits = number.to_string(out.allocator())?;
    out.extend(digits.as_bytes())
}

/// Writes the number, with its sign where it is below 0.
pub fn put_integer(out: &mut Text, number: i32) -> Result<(), Memory>
    ensures ok { OnOk result (out.new ≡ out.old ++ signed_decimal number) }
{
    let digits = number.to_string(out.allocator())?;
    out.extend(digits.as_bytes())
}

fn bit_letter(bit: Bit) -> u8
    ensures value { result ≡ bit_letter bit }
{
    match bit {
        Bit::S0 => b'0',
        Bit::S1 => b'1',
        Bit::X => b'x',
        Bit::Z => b'z',
        Bit::M => b'm',
        Bit::Dash => b'-',
    }
}

/// Writes the letter of each bit, the top one first.
fn put_letters(out: &mut Text, bits: &[Bit]) -> Result<(), Memory>
    ensures ok { OnOk result (out.new ≡ out.old ++ letters_of bits.now) }
{
    for bit in bits.iter().rev() {
        out.push(bit_letter(*bit))?;
    }
    Ok(())
}

/// Writes a value of these bits.
#[tactic(auto, unfolding(crate::specs::Constant::bits_text))]
pub fn put_bits(out: &mut Text, bits: &[Bit], signed: bool) -> Result<(), Memory>
    ensures ok { OnOk result (out.new ≡ out.old ++ bits_text bits.now signed) }
{
    put_number(out, bits.len() as u64)?;
    out.push(b'\'')?;
    if signed {
        out.push(b's')?;
    }
    put_letters(out, bits)
}

/// Writes a character of a string.
fn put_char(out: &mut Text, char: u8) -> Result<(), Memory>
    ensures ok { OnOk result (out.new ≡ out.old ++ escaped char) }
{
    match char {
        b'"' => out.extend(b"\\\""),
        b'\\' => out.extend(b"\\\\"),
        b'\n' => out.extend(b"\\n"),
        b'\t' => out.extend(b"\\t"),
        32..=126 => out.push(char),
        _ => out.extend(&[
            b'\\',
            b'0' + char / 64,
            b'0' + char / 8 % 8,
            b'0' + char % 8,
        ]),
    }
}

/// Writes a string of these characters.
#[tactic(auto, unfolding(crate::specs::Constant::string_text))]
fn put_string(out: &mut Text, chars: &[u8]) -> Result<(), Memory>
    ensures ok { OnOk result (out.new ≡ out.old ++ string_text chars.now) }
{
    out.push(b'"')?;
    for char in chars {
        put_char(out, *char)?;
    }
    out.push(b'"')
}

/// Writes a constant in its form.
#[tactic(auto, unfolding(crate::specs::Constant::value_text))]
pub fn put_value(out: &mut Text, value: &Value) -> Result<(), Memory>
    ensures ok { OnOk result (out.new ≡ out.old ++ value_text value.now) }
{
    match value {
        Value::Bits(bits, signed) => put_bits(out, bits.as_slice(), *signed),
        Value::Int(number) => put_integer(out, *number),
        Value::Chars(chars) => put_string(out, chars.as_slice()),
    }
}
