//! What the texts of tokens stand for.

use rtl_bits::Memory;
use rtl_lex::{bits_of, chars_of, int_of, is_signed, value_width};
use std::alloc::Global;
use table_rows::{spelled, str_of};

/// Whether a value has these bits.
pub fn has_bits(alloc: Global, fields: &[&[u8]]) -> Result<bool, Memory> {
    let [text, wanted] = fields else {
        return Ok(false);
    };
    let Some(width) = value_width(text) else {
        return Ok(false);
    };
    let found = bits_of(alloc, text, width)?;
    Ok(spelled(alloc, found.as_slice())?.as_slice() == *wanted)
}

/// Whether a value has this width, where it has one, and is signed or not.
pub fn has_width(fields: &[&[u8]]) -> bool {
    let [text, width, sign] = fields else {
        return false;
    };
    let is_wide = value_width(text) == str_of(width).parse::<u32>().ok();
    is_wide && is_signed(text) == (*sign == b"signed".as_slice())
}

/// Whether an integer is this one, or `?` where it is out of range.
pub fn is_integer(fields: &[&[u8]]) -> bool {
    let [text, wanted] = fields else {
        return false;
    };
    int_of(text) == str_of(wanted).parse::<i32>().ok()
}

/// Whether a string has these characters, written in hexadecimal digits.
pub fn has_characters(alloc: Global, fields: &[&[u8]]) -> Result<bool, Memory> {
    let [text, wanted] = fields else {
        return Ok(false);
    };
    let mut digits = String::new(alloc);
    for char in chars_of(alloc, text)?.as_slice() {
        write!(digits, "{char:02x}")?;
    }
    Ok(digits.as_bytes() == *wanted)
}
