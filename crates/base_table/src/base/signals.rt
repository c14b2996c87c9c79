//! Signals. One is written with the least significant bit first: `a` is bit 0 of wire 0, `b` bit 1 and so on.

use rtl_bits::{Bit, Copied, Memory};
use rtl_sig::{SigBit, SigFault, SigSpec, WireBit};
use std::alloc::Global;
use table_rows::str_of;

fn sig_bit(letter: u8) -> SigBit {
    match letter {
        b'0' => SigBit::Fixed(Bit::S0),
        b'1' => SigBit::Fixed(Bit::S1),
        b'a'..=b'z' => SigBit::Wire(WireBit {
            wire: 0,
            at: (letter - b'a') as u32,
        }),
        _ => SigBit::Fixed(Bit::X),
    }
}

/// The signal that is written so.
fn signal(alloc: Global, text: &[u8]) -> Result<SigSpec, Memory> {
    let mut signal = SigSpec::make(alloc);
    for letter in text {
        signal.push(sig_bit(*letter))?;
    }
    Ok(signal)
}

/// Whether the signal is written so.
fn is_signal(alloc: Global, bits: &SigSpec, text: &[u8]) -> Result<bool, Memory> {
    Ok(bits.as_slice() == signal(alloc, text)?.as_slice())
}

/// Whether the part of a signal is this one, or there is none.
pub fn is_part(alloc: Global, fields: &[&[u8]]) -> Result<bool, Memory> {
    let [_, bits, at, width, wanted] = fields else {
        return Ok(false);
    };
    let (Ok(at), Ok(width)) = (str_of(at).parse::<u32>(), str_of(width).parse::<u32>()) else {
        return Ok(false);
    };
    match signal(alloc, bits)?.slice(at, width) {
        Ok(part) => is_signal(alloc, &part, wanted),
        Err(fault) => Ok(fault == SigFault::Range && *wanted == b"!".as_slice()),
    }
}

/// Whether a signal at a width, signed or not, is this one.
pub fn is_extended(alloc: Global, fields: &[&[u8]]) -> Result<bool, Memory> {
    let [_, bits, width, sign, wanted] = fields else {
        return Ok(false);
    };
    let Ok(width) = str_of(width).parse::<u32>() else {
        return Ok(false);
    };
    let signed = *sign == b"signed".as_slice();
    let extended = signal(alloc, bits)?.extend(width, signed)?;
    is_signal(alloc, &extended, wanted)
}

/// Whether a signal with another one on top is this one.
pub fn is_joined(alloc: Global, fields: &[&[u8]]) -> Result<bool, Memory> {
    let [_, below, above, wanted] = fields else {
        return Ok(false);
    };
    match signal(alloc, below)?.concat(&signal(alloc, above)?) {
        Ok(joined) => is_signal(alloc, &joined, wanted),
        Err(_) => Ok(false),
    }
}

/// Whether a signal is as before after a copy, and after it was a slice and a vector.
pub fn stays(alloc: Global, text: &[u8]) -> Result<bool, Memory> {
    let copy = signal(alloc, text)?.copy()?;
    let again = SigSpec::from_slice(alloc, copy.as_slice())?;
    is_signal(alloc, &SigSpec::from_vec(again.into_vec()?)?, text)
}

/// Whether a signal has 4,194,304 bits, and none has one more.
pub fn are_widest(alloc: Global) -> Result<bool, Memory> {
    let below = SigSpec::make(alloc).extend(4_194_303, false)?;
    let Ok(widest) = below.concat(&signal(alloc, b"a")?) else {
        return Ok(false);
    };
    let is_refused = match below.concat(&signal(alloc, b"ab")?) {
        Err(fault) => fault == SigFault::Width,
        Ok(_) => false,
    };
    Ok(widest.as_slice().len() == 4_194_304 && is_refused)
}
