//! Functions of one, two and three bits, by their whole tables.

use rtl_bits::{Bit, Memory, Text, bit_and, bit_mux, bit_not, bit_or, bit_xor, merge};
use std::alloc::Global;
use table_rows::{bit_of, letter};

/// The six bits in the order of the tables.
const BITS: [Bit; 6] = [Bit::S0, Bit::S1, Bit::X, Bit::Z, Bit::M, Bit::Dash];

/// The letter of the value of the function of this name. A function of one bit takes the first.
fn value(function: &[u8], a: Bit, b: Bit) -> u8 {
    match function {
        b"known" if a.known() => b'1',
        b"known" => b'0',
        b"seen" => letter(a.seen()),
        b"not" => letter(bit_not(a)),
        b"merge" => letter(merge(a, b)),
        b"and" => letter(bit_and(a, b)),
        b"or" => letter(bit_or(a, b)),
        b"xor" => letter(bit_xor(a, b)),
        [b'm', b'u', b'x', s] => letter(bit_mux(a, b, bit_of(*s))),
        _ => b'?',
    }
}

/// The values of the function: those with each first bit in turn, for the second bits in order.
fn values_of(alloc: Global, function: &[u8], seconds: &[Bit]) -> Result<Text, Memory> {
    let mut values = Text::make(alloc);
    for a in BITS {
        for b in seconds {
            values.push(value(function, a, *b))?;
        }
    }
    Ok(values)
}

/// Whether a function has these values.
pub fn has_values(alloc: Global, fields: &[&[u8]]) -> Result<bool, Memory> {
    let [function, wanted] = fields else {
        return Ok(false);
    };
    let seconds = if wanted.len() == BITS.len() {
        &BITS[..1]
    } else {
        BITS.as_slice()
    };
    Ok(values_of(alloc, function, seconds)?.as_slice() == *wanted)
}
