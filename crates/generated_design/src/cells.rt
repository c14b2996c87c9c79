//! The cells of a generated module.

ghost use Rattle.std.specs.Prelude.{◌≡◌, IfOk};
ghost use Rattle.generated_design.specs.Generate.{adder, register};

use crate::wires::{A, B, C, S, Y};
use cell_types::{ParamName, PinName};
use net_index::whole;
use rtl_bits::{Memory, Seq, Text};
use rtl_ir::{Cell, integer_param, pin_of};
use std::alloc::Global;

/// The adder, from `\a` and `\b` to `$s`.
pub fn adder(alloc: Global, width: u32) -> Result<Cell, Memory>
    ensures value { IfOk result (λ cell. cell ≡ adder width) }
{
    let bits = width as usize;
    let mut params = Seq::make(alloc);
    params.push(integer_param(alloc, ParamName::ASigned, 0)?)?;
    params.push(integer_param(alloc, ParamName::AWidth, bits)?)?;
    params.push(integer_param(alloc, ParamName::BSigned, 0)?)?;
    params.push(integer_param(alloc, ParamName::BWidth, bits)?)?;
    params.push(integer_param(alloc, ParamName::YWidth, bits)?)?;
    let mut pins = Seq::make(alloc);
    pins.push(pin_of(alloc, PinName::A, whole(alloc, A, width)?.as_slice())?)?;
    pins.push(pin_of(alloc, PinName::B, whole(alloc, B, width)?.as_slice())?)?;
    pins.push(pin_of(alloc, PinName::Y, whole(alloc, S, width)?.as_slice())?)?;
    Ok(Cell {
        kind_name: Text::from_slice(alloc, b"$add")?,
        name: Text::from_slice(alloc, b"$1")?,
        params,
        pins,
        attributes: Seq::make(alloc),
    })
}

/// The register, from `$s` to `\y`.
pub fn register(alloc: Global, width: u32) -> Result<Cell, Memory>
    ensures value { IfOk result (λ cell. cell ≡ register width) }
{
    let mut params = Seq::make(alloc);
    params.push(integer_param(alloc, ParamName::Width, width as usize)?)?;
    params.push(integer_param(alloc, ParamName::ClkPolarity, 1)?)?;
    let mut pins = Seq::make(alloc);
    pins.push(pin_of(alloc, PinName::Clk, whole(alloc, C, 1)?.as_slice())?)?;
    pins.push(pin_of(alloc, PinName::D, whole(alloc, S, width)?.as_slice())?)?;
    pins.push(pin_of(alloc, PinName::Q, whole(alloc, Y, width)?.as_slice())?)?;
    Ok(Cell {
        kind_name: Text::from_slice(alloc, b"$dff")?,
        name: Text::from_slice(alloc, b"$2")?,
        params,
        pins,
        attributes: Seq::make(alloc),
    })
}
