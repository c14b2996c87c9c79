//! Parameters and pins of new cells.

ghost use Rattle.std.specs.Prelude.{◌≡◌, IfOk};
ghost use Rattle.cell_types.specs.ParamName.{param_text};
ghost use Rattle.cell_types.specs.PinName.{pin_text};
ghost use Rattle.rtl_ir.specs.Build.{bits_param, integer_param, pin_of};

use crate::cell::{CellParam, Pin};
use crate::value::Value;
use cell_types::{ParamName, PinName};
use rtl_bits::{Bits, Memory, Text};
use rtl_sig::{SigBit, SigSpec};
use std::alloc::Global;

/// A parameter that is written as an integer. A signal has at most 4,194,304 bits, so of its length memory alone can be
/// missing; a number of 2^31 or more is answered with `Memory` too.
pub fn integer_param(alloc: Global, name: ParamName, number: usize) -> Result<CellParam, Memory>
    ensures value { IfOk result (λ param. param ≡ integer_param (param_text name) number) }
{
    if number >= 1 << 31 {
        return Err(Memory);
    }
    Ok(CellParam {
        name: Text::from_slice(alloc, name.text())?,
        value: Value::Int(number as i32),
        signed: false,
    })
}

/// A parameter that is written as bits.
pub fn bits_param(alloc: Global, name: ParamName, bits: Bits) -> Result<CellParam, Memory>
    ensures value { IfOk result (λ param. param ≡ bits_param (param_text name) bits) }
{
    Ok(CellParam {
        name: Text::from_slice(alloc, name.text())?,
        value: Value::Bits(bits, false),
        signed: false,
    })
}

/// A pin that is connected to a signal.
pub fn pin_of(alloc: Global, name: PinName, bits: &[SigBit]) -> Result<Pin, Memory>
    ensures value { IfOk result (λ pin. pin ≡ pin_of (pin_text name) bits.now) }
{
    Ok(Pin {
        name: Text::from_slice(alloc, name.text())?,
        sig: SigSpec::from_slice(alloc, bits)?,
    })
}
