//! The cells of which multiplexers and matches are made.

ghost use Rattle.std.specs.Prelude.{◌≡◌, ◌<◌, [], true, Err, IfOk, OnOk, map};
ghost use Rattle.rtl_sig.specs.declared.sig.SigBit.{SigBit};
ghost use Rattle.rtl_ir.specs.Build.{pin_of};
ghost use Rattle.net_index.specs.Builder.{IsInLimits, PassesLimit, new_params};
ghost use Rattle.net_model.specs.Proc.Mux.{
  asked_places,
  equal_cell,
  is_asked,
  joined_bits,
  mux_cell,
  pattern_bit,
  pattern_bits,
};
ghost use Rattle.match_cells.specs.Parts.{binary_params, bit_cell, equal_pins, mux_pins, or_cell, or_params};

use cell_types::{CellKind, EqualKind, FoldKind, Param, ParamName, PinName, WordKind};
use net_index::{Builder, PassFault, length_param, number_param, whole};
use rtl_bits::{Bit, Memory};
use rtl_ir::{Pin, pin_of};
use rtl_sig::{SigBit, SigSpec, WireBit};
use std::alloc::Global;

/// A place of a pattern, and what the signal has there.
pub(crate) type Asked = (SigBit, SigBit);

/// Whether the place is asked: an unknown constant in a pattern matches whatever is there.
pub(crate) fn is_asked(place: Asked) -> bool
    ensures value { result ≡ is_asked place }
{
    match place.0 {
        SigBit::Fixed(bit) => bit.known(),
        SigBit::Wire(_) => true,
    }
}

/// The places of the pattern that are asked.
pub(crate) fn asked_places(
    alloc: Global,
    pattern: &[SigBit],
    signal: &[SigBit],
) -> Result<Vec<Asked>, Memory>
    ensures value { IfOk result (λ places. places.items ≡ asked_places pattern.now signal.now) }
{
    let places = pattern.iter().copied().zip(signal.iter().copied());
    Ok(places.filter(|place| is_asked(*place)).collect(alloc)?)
}

/// The parameters of a cell of two unsigned operands of this width, and an output of one bit.
pub fn binary_params(alloc: Global, width: usize) -> Result<Vec<Param>, Memory>
    ensures value { IfOk result (λ params. new_params params.items ≡ binary_params width) }
{
    let mut params = Vec::new(alloc);
    params.push(number_param(alloc, ParamName::ASigned, 0)?)?;
    params.push(length_param(alloc, ParamName::AWidth, width)?)?;
    params.push(number_param(alloc, ParamName::BSigned, 0)?)?;
    params.push(length_param(alloc, ParamName::BWidth, width)?)?;
    params.push(number_param(alloc, ParamName::YWidth, 1)?)?;
    Ok(params)
}

/// What the signal has at the places.
fn asked_of_signal(alloc: Global, places: &[Asked]) -> Result<Vec<SigBit>, Memory>
    ensures value { IfOk result (λ bits. bits.items ≡ map (λ (q : SigBit × SigBit). q.1) places.now) }
{
    Ok(places.iter().map(|place| place.1).collect(alloc)?)
}

/// What the pattern has at the places.
fn asked_of_pattern(alloc: Global, places: &[Asked]) -> Result<Vec<SigBit>, Memory>
    ensures value { IfOk result (λ bits. bits.items ≡ map (λ (q : SigBit × SigBit). q.0) places.now) }
{
    Ok(places.iter().map(|place| place.0).collect(alloc)?)
}

/// The pins of an `$eq` of the places: A from the signal, B from the pattern.
fn equal_pins(alloc: Global, places: &[Asked]) -> Result<Vec<Pin>, Memory>
    ensures value { IfOk result (λ pins. pins.items ≡ equal_pins places.now) }
{
    let signal = asked_of_signal(alloc, places)?;
    let pattern = asked_of_pattern(alloc, places)?;
    let mut pins = Vec::new(alloc);
    pins.push(pin_of(alloc, PinName::A, signal.as_slice())?)?;
    pins.push(pin_of(alloc, PinName::B, pattern.as_slice())?)?;
    Ok(pins)
}

/// The bit of a new cell of this kind, whose output Y is one fresh bit.
pub fn bit_cell(
    kind: CellKind,
    params: &[Param],
    pins: &[Pin],
    builder: &mut Builder,
) -> Result<SigBit, PassFault>
    ensures exact { IfOk result (λ bit. (bit, builder.new) ≡ bit_cell kind params.now pins.now builder.old) }
    ensures over { result ≡ Err PassFault.Over → PassesLimit (bit_cell kind params.now pins.now builder.old).1 }
    ensures within { OnOk result (IsInLimits builder.new) }
{
    let wire = builder.add_driver(kind, params, pins, PinName::Y.text(), 1)?;
    Ok(SigBit::Wire(WireBit { wire, at: 0 }))
}

/// The bit of a one-bit `$eq` of the places that are asked.
fn equal_cell(alloc: Global, places: &[Asked], builder: &mut Builder) -> Result<SigBit, PassFault>
    ensures exact { IfOk result (λ bit. (bit, builder.new) ≡ equal_cell places.now builder.old) }
    ensures over { result ≡ Err PassFault.Over → PassesLimit (equal_cell places.now builder.old).1 }
    ensures within { OnOk result (IsInLimits builder.new) }
{
    let kind = CellKind::Word(WordKind::Equal(EqualKind::Eq));
    let params = binary_params(alloc, places.len())?;
    let pins = equal_pins(alloc, places)?;
    bit_cell(kind, params.as_slice(), pins.as_slice(), builder)
}

/// The bit that a pattern gives, by the places that are asked.
fn pattern_bit(alloc: Global, places: &[Asked], builder: &mut Builder) -> Result<SigBit, PassFault>
    ensures exact { IfOk result (λ bit. (bit, builder.new) ≡ pattern_bit places.now builder.old) }
    ensures over { result ≡ Err PassFault.Over → PassesLimit (pattern_bit places.now builder.old).1 }
    ensures within { IsInLimits builder.old → OnOk result (IsInLimits builder.new) }
{
    match places {
        [] => Ok(SigBit::Fixed(Bit::S1)),
        [(SigBit::Fixed(Bit::S1), bit)] => Ok(*bit),
        _ => equal_cell(alloc, places, builder),
    }
}

/// The bits that the patterns give, in order. After an error the builder holds the cells of some.
#[tactic(auto, using(crate::proofs::Patterns::pattern_goes))]
pub(crate) fn pattern_bits(
    alloc: Global,
    signal: &[SigBit],
    patterns: &[SigSpec],
    builder: &mut Builder,
) -> Result<SigSpec, PassFault>
    ensures exact { IfOk result (λ bits. (bits, builder.new) ≡ pattern_bits signal.now patterns.now builder.old) }
    ensures over { result ≡ Err PassFault.Over → PassesLimit (pattern_bits signal.now patterns.now builder.old).1 }
    ensures within { IsInLimits builder.old → OnOk result (IsInLimits builder.new) }
{
    let mut bits = SigSpec::make(alloc);
    for pattern in patterns {
        let places = asked_places(alloc, pattern.as_slice(), signal)?;
        bits.push(pattern_bit(alloc, places.as_slice(), builder)?)?;
    }
    Ok(bits)
}

/// The parameters of a `$reduce_or` of this width.
fn or_params(alloc: Global, width: usize) -> Result<Vec<Param>, Memory>
    ensures value { IfOk result (λ params. new_params params.items ≡ or_params width) }
{
    let mut params = Vec::new(alloc);
    params.push(number_param(alloc, ParamName::ASigned, 0)?)?;
    params.push(length_param(alloc, ParamName::AWidth, width)?)?;
    params.push(number_param(alloc, ParamName::YWidth, 1)?)?;
    Ok(params)
}

/// The bit of a `$reduce_or` of several bits.
fn or_cell(alloc: Global, bits: &[SigBit], builder: &mut Builder) -> Result<SigBit, PassFault>
    ensures exact { IfOk result (λ bit. (bit, builder.new) ≡ or_cell bits.now builder.old) }
    ensures over { result ≡ Err PassFault.Over → PassesLimit (or_cell bits.now builder.old).1 }
    ensures within { OnOk result (IsInLimits builder.new) }
{
    let kind = CellKind::Word(WordKind::Fold(FoldKind::Or));
    let params = or_params(alloc, bits.len())?;
    let pins = [pin_of(alloc, PinName::A, bits)?];
    bit_cell(kind, params.as_slice(), &pins, builder)
}

/// The values of several patterns joined, the first as bit 0. Of one it is the value itself.
pub(crate) fn joined_bits(
    alloc: Global,
    bits: &[SigBit],
    builder: &mut Builder,
) -> Result<SigBit, PassFault>
    ensures exact { IfOk result (λ bit. (bit, builder.new) ≡ joined_bits bits.now builder.old) }
    ensures over { result ≡ Err PassFault.Over → PassesLimit (joined_bits bits.now builder.old).1 }
    ensures within { IsInLimits builder.old → OnOk result (IsInLimits builder.new) }
{
    match bits {
        [bit] => Ok(*bit),
        _ => or_cell(alloc, bits, builder),
    }
}

/// The pins of a `$mux`: A, B and S.
fn mux_pins(alloc: Global, a: &[SigBit], b: &[SigBit], s: SigBit) -> Result<Vec<Pin>, Memory>
    ensures value { IfOk result (λ pins. pins.items ≡ mux_pins a.now b.now s) }
{
    let mut pins = Vec::new(alloc);
    pins.push(pin_of(alloc, PinName::A, a)?)?;
    pins.push(pin_of(alloc, PinName::B, b)?)?;
    pins.push(pin_of(alloc, PinName::S, &[s])?)?;
    Ok(pins)
}

/// The output of a `$mux` that gives A, and B where the bit is 1.
pub fn mux_cell(
    alloc: Global,
    a: &[SigBit],
    b: &[SigBit],
    s: SigBit,
    builder: &mut Builder,
) -> Result<SigSpec, PassFault>
    ensures exact { IfOk result (λ output. (output, builder.new) ≡ mux_cell a.now b.now s builder.old) }
    ensures over { result ≡ Err PassFault.Over → PassesLimit (mux_cell a.now b.now s builder.old).1 }
    ensures within { OnOk result (IsInLimits builder.new) }
{
    let width = u32::try_from(a.len()).map_err(|_| Memory)?;
    let params = [length_param(alloc, ParamName::Width, a.len())?];
    let pins = mux_pins(alloc, a, b, s)?;
    let kind = CellKind::Word(WordKind::Mux);
    let wire = builder.add_driver(kind, &params, pins.as_slice(), PinName::Y.text(), width)?;
    Ok(whole(alloc, wire, width)?)
}
