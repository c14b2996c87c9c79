//! The parameters and pins that a cell has.

ghost use Rattle.std.specs.Prelude.{◌≡◌, ◌^◌, count_by, min};
ghost use Rattle.std.specs.Str.{bytes_eq};
ghost use Rattle.cell_types.specs.Given.{number_in, value_in};
ghost use Rattle.cell_types.specs.ParamName.{param_text};
ghost use Rattle.cell_types.specs.PinName.{pin_text};

use crate::number::number;
use crate::param_name::ParamName;
use crate::pin_name::PinName;
use rtl_bits::{Bit, Bits, Text};

/// A parameter of a cell with its value: of an integer 32 bits, of a string 8 bits a character.
#[derive(Drop)]
pub struct Param {
    /// The name, with its backslash.
    pub name: Text,
    pub value: Bits,
}

/// A pin of a cell with the width of its signal.
#[derive(Drop)]
pub struct PinWidth {
    /// The name, with its backslash.
    pub name: Text,
    pub width: u32,
}

impl Param {
    /// Whether it is the parameter of this name.
    pub(crate) fn is(&self, name: ParamName) -> bool
        ensures value { result ≡ bytes_eq self.now.name (param_text name) }
    {
        self.name.as_slice() == name.text()
    }
}

impl PinWidth {
    /// Whether it is the pin of this name.
    pub(crate) fn is(&self, name: PinName) -> bool
        ensures value { result ≡ bytes_eq self.now.name (pin_text name) }
    {
        self.name.as_slice() == name.text()
    }
}

/// How often the parameter is given.
pub(crate) fn count_params(params: &[Param], name: ParamName) -> usize
    ensures value { result ≡ count_by (λ param. bytes_eq param.name (param_text name)) params.now }
{
    params.iter().filter(|param| param.is(name)).count()
}

/// How often the pin is given.
pub(crate) fn count_pins(pins: &[PinWidth], name: PinName) -> usize
    ensures value { result ≡ count_by (λ pin. bytes_eq pin.name (pin_text name)) pins.now }
{
    pins.iter().filter(|pin| pin.is(name)).count()
}

/// The value of the parameter, no bits where it is not given.
pub(crate) fn value_in(params: &[Param], name: ParamName) -> &[Bit]
    ensures value { result.now ≡ value_in params.now name }
{
    for param in params {
        if param.is(name) {
            return param.value.as_slice();
        }
    }
    &[]
}

/// The value of the parameter as a number, or `MANY` where it is greater.
pub(crate) fn number_in(params: &[Param], name: ParamName) -> u128
    ensures value { result ≡ min (number_in params.now name) (2 ^ 64) }
{
    number(value_in(params, name))
}
