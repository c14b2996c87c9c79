//! Parameters as a `Builder` is given them.

ghost use Rattle.std.specs.Prelude.{◌≡◌, ◌<◌, ◌^◌, IfOk, false, reverse, true};
ghost use Rattle.std.specs.List.{flat_map};
ghost use Rattle.rtl_bits.specs.Numbers.{bits_of};
ghost use Rattle.rtl_ir.specs.Build.{bits_param, integer_param};
ghost use Rattle.rtl_ir.specs.declared.value.Value.TheVariants as value;
ghost use Rattle.cell_types.specs.ParamName.{param_text};
ghost use Rattle.cell_types.specs.declared.param_name.ParamName.TheVariants as param;
ghost use Rattle.net_index.specs.Builder.{is_number_param, is_value, new_param};

use cell_types::{Param, ParamName};
use rtl_bits::{Bit, Bits, Memory, Text};
use std::alloc::Global;

/// A parameter that is written as this integer.
pub fn number_param(alloc: Global, name: ParamName, number: u32) -> Result<Param, Memory>
    requires small { number < 2 ^ 31 }
    requires number { is_number_param name ≡ true }
    ensures value { IfOk result (λ param. new_param param ≡ integer_param (param_text name) number) }
{
    Ok(Param {
        name: Text::from_slice(alloc, name.text())?,
        value: Bits::from_number(alloc, u128::from(number), 32)?,
    })
}

/// A parameter that is written as this length. A signal has at most 4,194,304 bits, so of its length memory alone can
/// be missing; one of 2^31 or more is answered with `Memory` too.
pub fn length_param(alloc: Global, name: ParamName, length: usize) -> Result<Param, Memory>
    requires number { is_number_param name ≡ true }
    ensures value { IfOk result (λ param. new_param param ≡ integer_param (param_text name) «length») }
{
    match u32::try_from(length) {
        Ok(number) if number < 1 << 31 => number_param(alloc, name, number),
        _ => Err(Memory),
    }
}

/// A parameter that is written as these bits.
#[tactic(auto, using(crate::proofs::GivenParams::written_bits))]
pub fn value_param(alloc: Global, name: ParamName, bits: &[Bit]) -> Result<Param, Memory>
    requires value { is_value (param_text name) ≡ true }
    ensures value { IfOk result (λ param. new_param param ≡ bits_param (param_text name) bits.now) }
{
    Ok(Param {
        name: Text::from_slice(alloc, name.text())?,
        value: Bits::from_slice(alloc, bits)?,
    })
}

/// The parameter that names the memory of a cell.
pub fn memory_param(alloc: Global, memory: &[u8]) -> Result<Param, Memory>
    ensures value { IfOk result (λ made.
        new_param made ≡ record { name = param_text param.Memid; value = value.Chars memory.now; signed = false }) }
{
    Ok(Param {
        name: Text::from_slice(alloc, ParamName::Memid.text())?,
        value: char_bits(alloc, memory)?,
    })
}

/// The bits of the characters, those of the last character lowest.
#[tactic(auto, using(crate::proofs::GivenParams::chars_here))]
fn char_bits(alloc: Global, chars: &[u8]) -> Result<Bits, Memory>
    ensures value { IfOk result (λ bits. bits ≡ flat_map (λ c. bits_of c 8) (reverse chars.now)) }
{
    let mut bits = Bits::make(alloc);
    for at in (0..chars.len()).rev() {
        let low = Bits::from_number(alloc, u128::from(chars[at]), 8)?;
        bits.extend(low.as_slice())?;
    }
    Ok(bits)
}
