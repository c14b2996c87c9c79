//! The cells of words, write chains and read trees.

ghost use Rattle.std.specs.Prelude.{◌≡◌, Err, IfOk, OnOk};
ghost use Rattle.net_index.specs.Builder.{IsInLimits, PassesLimit, new_params};
ghost use Rattle.net_model.specs.Mem.Expand.{address_match, run_select};
ghost use Rattle.mem_map.specs.Parts.{and_cell, binary_pins, register_cell, register_params, register_pins};

use cell_types::{
    BitwiseKind, CellKind, EqualKind, Param, ParamName, PinName, StorageKind, WordKind,
};
use match_cells::{binary_params, bit_cell};
use net_index::{Builder, PassFault, length_param, number_param};
use rtl_bits::{Bit, Bits, Memory};
use rtl_ir::{Pin, pin_of};
use rtl_sig::{SigBit, fixed};
use std::alloc::Global;

/// The pins of two operands.
fn binary_pins(alloc: Global, a: &[SigBit], b: &[SigBit]) -> Result<Vec<Pin>, Memory>
    ensures value { IfOk result (λ pins. pins.items ≡ binary_pins a.now b.now) }
{
    let mut pins = Vec::new(alloc);
    pins.push(pin_of(alloc, PinName::A, a)?)?;
    pins.push(pin_of(alloc, PinName::B, b)?)?;
    Ok(pins)
}

/// The match of a port: whether its address is the number.
pub(crate) fn address_match(
    alloc: Global,
    address: &[SigBit],
    number: u64,
    builder: &mut Builder,
) -> Result<SigBit, PassFault>
    ensures exact { IfOk result (λ bit. (bit, builder.new) ≡ address_match address.now number builder.old) }
    ensures over { result ≡ Err PassFault.Over → PassesLimit (address_match address.now number builder.old).1 }
    ensures within { OnOk result (IsInLimits builder.new) }
{
    let width = u32::try_from(address.len()).map_err(|_| Memory)?;
    let bits = Bits::from_number(alloc, u128::from(number), width)?;
    let asked = fixed(alloc, bits.as_slice())?;
    let params = binary_params(alloc, address.len())?;
    let pins = binary_pins(alloc, address, asked.as_slice())?;
    let kind = CellKind::Word(WordKind::Equal(EqualKind::Eq));
    bit_cell(kind, params.as_slice(), pins.as_slice(), builder)
}

/// An `$and` of two bits.
fn and_cell(alloc: Global, a: SigBit, b: SigBit, builder: &mut Builder) -> Result<SigBit, PassFault>
    ensures exact { IfOk result (λ bit. (bit, builder.new) ≡ and_cell a b builder.old) }
    ensures over { result ≡ Err PassFault.Over → PassesLimit (and_cell a b builder.old).1 }
    ensures within { OnOk result (IsInLimits builder.new) }
{
    let params = binary_params(alloc, 1)?;
    let pins = binary_pins(alloc, &[a], &[b])?;
    let kind = CellKind::Word(WordKind::Bitwise(BitwiseKind::And));
    bit_cell(kind, params.as_slice(), pins.as_slice(), builder)
}

/// The select of a run of this enable: the match where the enable is the constant 1, else both.
pub(crate) fn run_select(
    alloc: Global,
    matched: SigBit,
    enable: SigBit,
    builder: &mut Builder,
) -> Result<SigBit, PassFault>
    ensures exact { IfOk result (λ bit. (bit, builder.new) ≡ run_select matched enable builder.old) }
    ensures over { result ≡ Err PassFault.Over → PassesLimit (run_select matched enable builder.old).1 }
    ensures within { IsInLimits builder.old → OnOk result (IsInLimits builder.new) }
{
    match enable {
        SigBit::Fixed(Bit::S1) => Ok(matched),
        _ => and_cell(alloc, matched, enable, builder),
    }
}

/// The parameters of a register.
fn register_params(alloc: Global, width: usize, rising: bool) -> Result<Vec<Param>, Memory>
    ensures value { IfOk result (λ params. new_params params.items ≡ register_params width rising) }
{
    let polarity = if rising { 1 } else { 0 };
    let mut params = Vec::new(alloc);
    params.push(length_param(alloc, ParamName::Width, width)?)?;
    params.push(number_param(alloc, ParamName::ClkPolarity, polarity)?)?;
    Ok(params)
}

/// The pins of a register: CLK, D and Q.
fn register_pins(
    alloc: Global,
    clock: SigBit,
    d: &[SigBit],
    q: &[SigBit],
) -> Result<Vec<Pin>, Memory>
    ensures value { IfOk result (λ pins. pins.items ≡ register_pins clock d.now q.now) }
{
    let mut pins = Vec::new(alloc);
    pins.push(pin_of(alloc, PinName::Clk, &[clock])?)?;
    pins.push(pin_of(alloc, PinName::D, d)?)?;
    pins.push(pin_of(alloc, PinName::Q, q)?)?;
    Ok(pins)
}

/// A `$dff` of a clock bit.
pub(crate) fn register_cell(
    alloc: Global,
    clock: SigBit,
    rising: bool,
    d: &[SigBit],
    q: &[SigBit],
    builder: &mut Builder,
) -> Result<(), PassFault>
    ensures exact { OnOk result (builder.new ≡ register_cell clock rising d.now q.now builder.old) }
    ensures over { result ≡ Err PassFault.Over → PassesLimit (register_cell clock rising d.now q.now builder.old) }
    ensures within { OnOk result (IsInLimits builder.new) }
{
    let params = register_params(alloc, q.len(), rising)?;
    let pins = register_pins(alloc, clock, d, q)?;
    let kind = CellKind::Storage(StorageKind::Dff);
    builder.add_cell(kind, params.as_slice(), pins.as_slice())?;
    Ok(())
}
