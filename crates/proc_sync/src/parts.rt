//! The parameters and pins of new cells.

ghost use Rattle.std.specs.Prelude.{◌≡◌, IfOk};
ghost use Rattle.net_index.specs.Builder.{new_params};
ghost use Rattle.proc_sync.specs.Cells.{
  clocked_params,
  clocked_pins,
  data_pins,
  enabled_params,
  enabled_pins,
  load_params,
  load_pins,
  reset_params,
  reset_pins,
};

use cell_types::{Level, Param, ParamName, PinName};
use match_cells::polarity_of;
use net_index::{length_param, number_param, value_param};
use rtl_bits::Memory;
use rtl_ir::{Pin, constants_of, pin_of};
use rtl_sig::SigBit;
use std::alloc::Global;

/// The width, and the level of an enable.
pub(crate) fn enabled_params(
    alloc: Global,
    width: usize,
    level: Level,
) -> Result<Vec<Param>, Memory>
    ensures value { IfOk result (λ params. new_params params.items ≡ enabled_params width level) }
{
    let mut params = Vec::new(alloc);
    params.push(length_param(alloc, ParamName::Width, width)?)?;
    params.push(number_param(alloc, ParamName::EnPolarity, polarity_of(level))?)?;
    Ok(params)
}

/// The width, and the level of a clock.
pub(crate) fn clocked_params(
    alloc: Global,
    width: usize,
    level: Level,
) -> Result<Vec<Param>, Memory>
    ensures value { IfOk result (λ params. new_params params.items ≡ clocked_params width level) }
{
    let mut params = Vec::new(alloc);
    params.push(length_param(alloc, ParamName::Width, width)?)?;
    params.push(number_param(alloc, ParamName::ClkPolarity, polarity_of(level))?)?;
    Ok(params)
}

/// The width, the levels of a clock and a reset, and the reset's value.
pub(crate) fn reset_params(
    alloc: Global,
    width: usize,
    clock: Level,
    level: Level,
    given: &[SigBit],
) -> Result<Vec<Param>, Memory>
    ensures value { IfOk result (λ params. new_params params.items ≡ reset_params width clock level given.now) }
{
    let bits = constants_of(alloc, given)?;
    let mut params = clocked_params(alloc, width, clock)?;
    params.push(number_param(alloc, ParamName::ArstPolarity, polarity_of(level))?)?;
    params.push(value_param(alloc, ParamName::ArstValue, bits.as_slice())?)?;
    Ok(params)
}

/// The width, and the levels of a clock and a load.
pub(crate) fn load_params(
    alloc: Global,
    width: usize,
    clock: Level,
    level: Level,
) -> Result<Vec<Param>, Memory>
    ensures value { IfOk result (λ params. new_params params.items ≡ load_params width clock level) }
{
    let mut params = clocked_params(alloc, width, clock)?;
    params.push(number_param(alloc, ParamName::AloadPolarity, polarity_of(level))?)?;
    Ok(params)
}

/// The pins D and Q.
pub(crate) fn data_pins(alloc: Global, d: &[SigBit], q: &[SigBit]) -> Result<Vec<Pin>, Memory>
    ensures value { IfOk result (λ pins. pins.items ≡ data_pins d.now q.now) }
{
    let mut pins = Vec::new(alloc);
    pins.push(pin_of(alloc, PinName::D, d)?)?;
    pins.push(pin_of(alloc, PinName::Q, q)?)?;
    Ok(pins)
}

/// The pins EN, D and Q.
pub(crate) fn enabled_pins(
    alloc: Global,
    en: &[SigBit],
    d: &[SigBit],
    q: &[SigBit],
) -> Result<Vec<Pin>, Memory>
    ensures value { IfOk result (λ pins. pins.items ≡ enabled_pins en.now d.now q.now) }
{
    let mut pins = Vec::new(alloc);
    pins.push(pin_of(alloc, PinName::En, en)?)?;
    pins.push(pin_of(alloc, PinName::D, d)?)?;
    pins.push(pin_of(alloc, PinName::Q, q)?)?;
    Ok(pins)
}

/// The pins CLK, D and Q.
pub(crate) fn clocked_pins(
    alloc: Global,
    clk: &[SigBit],
    d: &[SigBit],
    q: &[SigBit],
) -> Result<Vec<Pin>, Memory>
    ensures value { IfOk result (λ pins. pins.items ≡ clocked_pins clk.now d.now q.now) }
{
    let mut pins = Vec::new(alloc);
    pins.push(pin_of(alloc, PinName::Clk, clk)?)?;
    pins.push(pin_of(alloc, PinName::D, d)?)?;
    pins.push(pin_of(alloc, PinName::Q, q)?)?;
    Ok(pins)
}

/// The pins CLK, ARST, D and Q.
pub(crate) fn reset_pins(
    alloc: Global,
    clk: &[SigBit],
    arst: &[SigBit],
    d: &[SigBit],
    q: &[SigBit],
) -> Result<Vec<Pin>, Memory>
    ensures value { IfOk result (λ pins. pins.items ≡ reset_pins clk.now arst.now d.now q.now) }
{
    let mut pins = Vec::new(alloc);
    pins.push(pin_of(alloc, PinName::Clk, clk)?)?;
    pins.push(pin_of(alloc, PinName::Arst, arst)?)?;
    pins.push(pin_of(alloc, PinName::D, d)?)?;
    pins.push(pin_of(alloc, PinName::Q, q)?)?;
    Ok(pins)
}

/// The pins CLK, ALOAD, AD, D and Q.
pub(crate) fn load_pins(
    alloc: Global,
    clk: &[SigBit],
    aload: &[SigBit],
    ad: &[SigBit],
    d: &[SigBit],
    q: &[SigBit],
) -> Result<Vec<Pin>, Memory>
    ensures value { IfOk result (λ pins. pins.items ≡ load_pins clk.now aload.now ad.now d.now q.now) }
{
    let mut pins = Vec::new(alloc);
    pins.push(pin_of(alloc, PinName::Clk, clk)?)?;
    pins.push(pin_of(alloc, PinName::Aload, aload)?)?;
    pins.push(pin_of(alloc, PinName::Ad, ad)?)?;
    pins.push(pin_of(alloc, PinName::D, d)?)?;
    pins.push(pin_of(alloc, PinName::Q, q)?)?;
    Ok(pins)
}
