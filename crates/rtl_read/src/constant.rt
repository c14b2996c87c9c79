//! Constants.

ghost use Rattle.std.specs.Prelude.{◌≡◌, ◌<◌, ◌*◌, map, IfOk};
ghost use Rattle.std.specs.Prelude.{reverse};
ghost use Rattle.std.specs.List.{flat_map};
ghost use Rattle.rtl_lex.specs.Items.{as_seen};
ghost use Rattle.rtl_sig.specs.declared.sig.SigBit.TheVariants.{Fixed};
ghost use Rattle.rtl_read.specs.Constant.{integer, value, string, constant, low_bits, unsigned, constant_bits, fixed};
ghost use Rattle.rtl_read.specs.Gives.{Gives};

use crate::read_fault::ReadFault;
use rtl_bits::{Bit, Bits, Copied, Memory};
use rtl_ir::Value;
use rtl_ir::limits::MAX_WIDTH;
use rtl_lex::{Item, Sort, bits_of, chars_of, is_signed, value_width};
use rtl_sig::{SigBit, SigSpec};
use std::alloc::Global;

/// The integer of an item, where it is in range.
pub(crate) fn integer(item: &Item<'_>) -> Result<i32, ReadFault>
    ensures { Gives result (integer item.now.number (as_seen item.now)) }
{
    match item.number {
        Some(number) => Ok(number),
        None => Err(ReadFault::Int(item.place)),
    }
}

/// A value, where its width is within the limit.
fn value(alloc: Global, item: &Item<'_>) -> Result<Value, ReadFault>
    ensures { Gives result (value (as_seen item.now)) }
{
    match value_width(item.text) {
        Some(width) if width <= MAX_WIDTH => {
            let bits = bits_of(alloc, item.text, width)?;
            Ok(Value::Bits(bits, is_signed(item.text)))
        }
        _ => Err(ReadFault::Limit(item.place)),
    }
}

/// A string, where its width is within the limit.
fn string(alloc: Global, item: &Item<'_>) -> Result<Value, ReadFault>
    ensures { Gives result (string (as_seen item.now)) }
{
    let chars = chars_of(alloc, item.text)?;
    if chars.as_slice().len() > MAX_WIDTH as usize / 8 {
        return Err(ReadFault::Limit(item.place));
    }
    Ok(Value::Chars(chars))
}

/// The constant that an item writes.
pub(crate) fn constant(alloc: Global, item: &Item<'_>) -> Result<Value, ReadFault>
    ensures { Gives result (constant item.now.sort (as_seen item.now)) }
{
    match item.sort {
        Sort::Value => value(alloc, item),
        Sort::Int => match integer(item) {
            Ok(number) => Ok(Value::Int(number)),
            Err(fault) => Err(fault),
        },
        Sort::Chars => string(alloc, item),
        _ => Err(ReadFault::Syntax(item.place)),
    }
}

/// So many low bits of a number.
#[tactic(auto, unfolding(crate::specs::Constant::low_bits))]
fn low_bits(alloc: Global, number: u32, width: u32) -> Result<Bits, Memory>
    ensures { IfOk result (λ bits. bits ≡ low_bits number width) }
{
    Bits::from_number(alloc, u128::from(number), width)
}

/// The integer as a number of 32 bits.
fn unsigned(number: i32) -> u32
    ensures { result ≡ unsigned number }
{
    if number >= 0 {
        number.unsigned_abs()
    } else {
        ((1u64 << 32) - u64::from(number.unsigned_abs())) as u32
    }
}

/// The bits of the characters, those of the last character lowest.
#[tactic(auto, using(crate::proofs::Stacks::chars_here))]
fn char_bits(alloc: Global, chars: &[u8]) -> Result<Bits, Memory>
    ensures { IfOk result (λ bits. bits ≡ flat_map (λ c. low_bits c 8) (reverse chars.now)) }
{
    let mut bits = Bits::make(alloc);
    for at in (0..chars.len()).rev() {
        let low = low_bits(alloc, u32::from(chars[at]), 8)?;
        bits.extend(low.as_slice())?;
    }
    Ok(bits)
}

fn constant_bits(alloc: Global, value: &Value) -> Result<Bits, Memory>
    ensures { IfOk result (λ bits. bits ≡ constant_bits value.now) }
{
    match value {
        Value::Bits(bits, _) => bits.copy(),
        Value::Int(number) => low_bits(alloc, unsigned(*number), 32),
        Value::Chars(text) => char_bits(alloc, text.as_slice()),
    }
}

/// The bits as a signal.
fn all_fixed(alloc: Global, bits: &[Bit]) -> Result<SigSpec, Memory>
    ensures { IfOk result (λ sig. sig ≡ map (λ b. Fixed b) bits.now) }
{
    let mut signal = SigSpec::with_capacity(alloc, bits.len())?;
    for bit in bits {
        signal.push(SigBit::Fixed(*bit))?;
    }
    Ok(signal)
}

/// A constant as a signal.
pub(crate) fn fixed(alloc: Global, value: &Value) -> Result<SigSpec, Memory>
    ensures { IfOk result (λ sig. sig ≡ fixed value.now) }
{
    if let Value::Bits(bits, _) = value {
        return all_fixed(alloc, bits.as_slice());
    }
    let bits = constant_bits(alloc, value)?;
    all_fixed(alloc, bits.as_slice())
}
