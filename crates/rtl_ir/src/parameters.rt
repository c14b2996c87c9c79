//! What the parameters and pins of a cell say.

ghost use Rattle.std.specs.Prelude.{◌≡◌, ◌<◌, ◌^◌, IfOk, SomeIff, option_map};
ghost use Rattle.cell_types.specs.Given.{number_in};
ghost use Rattle.cell_types.specs.PinName.{pin_text};
ghost use Rattle.rtl_ir.specs.Parameters.{chars_in, given_params, memory_name, param_bits, signal_at};

use crate::cell::{CellParam, Pin};
use crate::constants::value_bits;
use crate::value::Value;
use cell_types::{Param, ParamName, PinName};
use rtl_bits::{Bits, Copied, Memory, number_of};
use rtl_sig::SigBit;
use std::alloc::Global;

/// The parameters with the bits of their values.
pub fn given_params(alloc: Global, params: &[CellParam]) -> Result<Vec<Param>, Memory>
    ensures value { IfOk result (λ given. given.items ≡ given_params params.now) }
{
    let mut given = Vec::with_capacity(alloc, params.len())?;
    for param in params {
        given.push(Param {
            name: param.name.copy()?,
            value: value_bits(alloc, &param.value)?,
        })?;
    }
    Ok(given)
}

/// The bits of the parameter of this name, none where it is not given.
pub fn value_in(alloc: Global, params: &[CellParam], name: ParamName) -> Result<Bits, Memory>
    ensures value { IfOk result (λ bits. bits ≡ param_bits params.now name) }
{
    for param in params {
        if param.name.as_slice() == name.text() {
            return value_bits(alloc, &param.value);
        }
    }
    Ok(Bits::make(alloc))
}

/// The parameter of this name as a number, 0 where it is not given. There is none where it is 2^64 or more.
pub fn number_in(
    alloc: Global,
    params: &[CellParam],
    name: ParamName,
) -> Result<Option<u64>, Memory>
    ensures value { IfOk result (λ number.
        SomeIff number (number_in (given_params params.now) name < 2 ^ 64) (number_in (given_params params.now) name)) }
{
    let bits = value_in(alloc, params, name)?;
    Ok(number_of(bits.as_slice()))
}

/// The characters of a string, where the constant is one.
pub fn chars_in(value: &Value) -> Option<&[u8]>
    ensures value { option_map (λ text. text.now) result ≡ chars_in value.now }
{
    match value {
        Value::Chars(text) => Some(text.as_slice()),
        _ => None,
    }
}

/// The name of the memory that a cell belongs to, where it is written as a string.
pub fn memory_name(params: &[CellParam]) -> Option<&[u8]>
    ensures value { option_map (λ name. name.now) result ≡ memory_name params.now }
{
    for param in params {
        if param.name.as_slice() == ParamName::Memid.text() {
            return chars_in(&param.value);
        }
    }
    None
}

/// The signal at the pin of this name, no bits where there is none.
pub fn signal_at<'a>(pins: &'a [Pin], name: &[u8]) -> &'a [SigBit]
    ensures value { result.now ≡ signal_at pins.now name.now }
{
    for pin in pins {
        if pin.name.as_slice() == name {
            return pin.sig.as_slice();
        }
    }
    &[]
}

/// The signal at a pin of a cell of the library, no bits where there is none.
pub fn pin_signal(pins: &[Pin], pin: PinName) -> &[SigBit]
    ensures value { result.now ≡ signal_at pins.now (pin_text pin) }
{
    signal_at(pins, pin.text())
}
