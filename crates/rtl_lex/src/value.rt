//! Values: a width, an apostrophe, an optional `s`, and bits.

ghost use Rattle.std.specs.Prelude.{◌≡◌, ◌<◌, ◌≤◌, ◌^◌, length, map, reverse, MatchOption, IfOk};
ghost use Rattle.std.specs.List.{slice_index_or};
ghost use Rattle.rtl_lex.specs.Values.{sign_len, tail_of, written_of, width_of, is_signed, bit_of, fill_of, bits_of};

use crate::number::decimal;
use crate::scan::digits;
use rtl_bits::{Bit, Bits, Memory};
use std::alloc::Global;

/// How many bytes the `s` at the front has: 1, or 0 where there is none.
pub fn sign_len(bytes: &[u8]) -> usize
    ensures value { result ≡ sign_len bytes.now }
    ensures within { result ≤ length bytes.now }
{
    if !bytes.is_empty() && bytes[0] == b's' {
        1
    } else {
        0
    }
}

/// What stands behind the apostrophe.
fn tail_of(text: &[u8]) -> &[u8]
    ensures value { result.now ≡ tail_of text.now }
{
    let count = digits(text);
    if count < text.len() {
        &text[count + 1..]
    } else {
        &[]
    }
}

/// The bits as they are written, the most significant first.
fn written_of(text: &[u8]) -> &[u8]
    ensures value { result.now ≡ written_of text.now }
{
    let tail = tail_of(text);
    &tail[sign_len(tail)..]
}

/// The width that the text of a value token gives. None where it does not fit.
pub fn value_width(text: &[u8]) -> Option<u32>
    ensures value { MatchOption result (2 ^ 32 ≤ width_of text.now) (λ width. width ≡ width_of text.now) }
{
    decimal(&text[..digits(text)])
}

/// Whether the text of a value token has its `s`.
pub fn is_signed(text: &[u8]) -> bool
    ensures value { result ≡ is_signed text.now }
{
    sign_len(tail_of(text)) == 1
}

fn bit_of(byte: u8) -> Bit
    ensures { result ≡ bit_of byte }
{
    match byte {
        b'0' => Bit::S0,
        b'1' => Bit::S1,
        b'x' => Bit::X,
        b'z' => Bit::Z,
        b'm' => Bit::M,
        _ => Bit::Dash,
    }
}

/// The bit that stands above the written ones.
fn fill_of(written: &[u8]) -> Bit
    ensures { result ≡ fill_of written.now }
{
    if written.is_empty() {
        return Bit::X;
    }
    match bit_of(written[0]) {
        Bit::S1 => Bit::S0,
        top => top,
    }
}

/// The bit of a value at a place, where the place is counted from bit 0.
fn bit_at(written: &[u8], fill: Bit, at: usize) -> Bit
    ensures { result ≡ slice_index_or (map bit_of (reverse written.now)) at fill }
{
    if at < written.len() {
        bit_of(written[written.len() - 1 - at])
    } else {
        fill
    }
}

/// The bits of a value token's text, bit 0 first, as many as its width.
///
/// The last written bit is bit 0. Missing bits are filled in above the written ones: with 0 above a
/// top 1, with x where none is written, else with the top written bit. Of more bits than the width
/// the top ones are cut off. `width` is what `value_width` gives, which a caller tests first: the
/// list takes memory for so many bits.
#[tactic(auto, using(crate::proofs::Filling::fitted_more))]
pub fn bits_of(alloc: Global, text: &[u8], width: u32) -> Result<Bits, Memory>
    requires { width ≡ width_of text.now }
    ensures value { IfOk result (λ bits. bits ≡ bits_of text.now) }
{
    let written = written_of(text);
    let fill = fill_of(written);
    let mut bits = Vec::with_capacity(alloc, width as usize)?;
    for at in 0..width as usize {
        bits.push(bit_at(written, fill, at))?;
    }
    Ok(Bits::from_vec(bits))
}
