//! The numbers that lists of bits stand for.

use rtl_bits::{Bits, Memory};
use std::alloc::Global;
use std::fmt::Display;
use table_rows::{bit_of, bits_of, spelled, str_of};

/// Whether the number is written so; `?` is written for none.
fn is_written<N: Display + Drop>(
    alloc: Global,
    number: Option<N>,
    wanted: &[u8],
) -> Result<bool, Memory> {
    match number {
        Some(number) => Ok(number.to_string(alloc)?.as_bytes() == wanted),
        None => Ok(wanted == b"?".as_slice()),
    }
}

/// Whether the bits are these numbers, without a sign and with one.
fn are(alloc: Global, bits: &Bits, unsigned: &[u8], signed: &[u8]) -> Result<bool, Memory> {
    Ok(is_written(alloc, bits.unsigned(), unsigned)? && is_written(alloc, bits.signed(), signed)?)
}

/// Whether written bits are these numbers.
pub fn are_numbers(alloc: Global, fields: &[&[u8]]) -> Result<bool, Memory> {
    let [bits, unsigned, signed] = fields else {
        return Ok(false);
    };
    are(alloc, &bits_of(alloc, bits)?, unsigned, signed)
}

/// Whether so many bits, all of them the same, are these numbers.
pub fn are_filled(alloc: Global, fields: &[&[u8]]) -> Result<bool, Memory> {
    let [[bit], width, unsigned, signed] = fields else {
        return Ok(false);
    };
    let Ok(width) = str_of(width).parse::<u32>() else {
        return Ok(false);
    };
    let bits = Bits::filled(alloc, bit_of(*bit), width)?;
    let is_wide = bits.as_slice().len() == width as usize;
    Ok(is_wide && are(alloc, &bits, unsigned, signed)?)
}

/// Whether a number has these bits at a width.
pub fn has_bits(alloc: Global, fields: &[&[u8]]) -> Result<bool, Memory> {
    let [number, width, wanted] = fields else {
        return Ok(false);
    };
    let (Ok(number), Ok(width)) = (str_of(number).parse::<u128>(), str_of(width).parse::<u32>())
    else {
        return Ok(false);
    };
    let bits = Bits::from_number(alloc, number, width)?;
    Ok(spelled(alloc, bits.as_slice())?.as_slice() == *wanted)
}
