//! Wires with their start values.

ghost use Rattle.std.specs.Prelude.{
  ◌≡◌,
  ◌<◌,
  IfOk,
  IfSome,
  length,
  slice_get,
  slice_index_or,
  slice_set,
  vec_len,
};
ghost use Rattle.rtl_bits.specs.declared.bit.Bit.TheVariants.{X};
ghost use Rattle.rtl_ir.specs.declared.module.Module.{Module};
ghost use Rattle.net_model.specs.Proc.Start.{begun_wires, init_attribute, with_attribute, wire_starts};
ghost use Rattle.proc_tree.specs.Attributes.{place_of};
ghost use Rattle.proc_tree.specs.Starts.{AreStartsOf, begun_wire};

use crate::starts::Starts;
use rtl_bits::{Bit, Bits, Copied, Memory, Seq, Text};
use rtl_ir::{Attribute, Value, Wire, attribute_bits};
use rtl_sig::WireBit;
use std::alloc::Global;

/// The wires, each with its start values in the attribute `\init` where a process gives one to a bit of it. More than
/// 2^32 of them are taken for want of memory.
pub(crate) fn begun_wires(
    alloc: Global,
    wires: &[Wire],
    starts: &Starts,
) -> Result<Vec<Wire>, Memory>
    ensures value { IfOk result (λ begun. («module» : Module) → AreStartsOf starts.now «module» →
        «module».wires ≡ wires.now → begun.items ≡ begun_wires «module» 0 wires.now) }
{
    let mut begun = Vec::with_capacity(alloc, wires.len())?;
    for (place, wire) in wires.iter().enumerate() {
        begun.push(begun_wire(alloc, wire, place, starts)?)?;
    }
    Ok(begun)
}

/// The wire at the place, with its start values where a process gives one to a bit of it.
fn begun_wire(alloc: Global, wire: &Wire, place: usize, starts: &Starts) -> Result<Wire, Memory>
    ensures value { IfOk result (λ begun. («module» : Module) → AreStartsOf starts.now «module» →
        slice_get «module».wires place ≡ Some wire.now → begun ≡ begun_wire «module» place wire.now) }
{
    if !starts.is_begun(place) {
        return wire.copy();
    }
    let place = place_number(place)?;
    let bits = start_bits(alloc, wire, place, starts)?;
    with_starts(alloc, wire, bits)
}

/// The place as it stands in bits.
fn place_number(place: usize) -> Result<u32, Memory>
    ensures value { IfOk result (λ number. number ≡ place) }
{
    u32::try_from(place).ok().ok_or(Memory)
}

/// The start values of the bits of the wire at the place: those that processes give, else those of its `\init`.
fn start_bits(alloc: Global, wire: &Wire, place: u32, starts: &Starts) -> Result<Bits, Memory>
    ensures value { IfOk result (λ bits. («module» : Module) → AreStartsOf starts.now «module» →
        slice_get «module».wires place ≡ Some wire.now → bits ≡ wire_starts «module» place wire.now.width) }
{
    let init = attribute_bits(alloc, wire.attributes.as_slice(), b"\\init")?;
    let mut bits = Vec::with_capacity(alloc, wire.width as usize)?;
    for at in 0..wire.width {
        let given = starts.given(WireBit { wire: place, at });
        let value = given.unwrap_or(bit_at(init.as_slice(), at));
        bits.push(value.seen())?;
    }
    Ok(Bits::from_vec(bits))
}

/// The bit at a place, past the end x.
fn bit_at(bits: &[Bit], at: u32) -> Bit
    ensures value { result ≡ slice_index_or bits.now at X }
{
    match bits.get(at as usize) {
        Some(bit) => *bit,
        None => Bit::X,
    }
}

/// The wire with these bits as its start values.
fn with_starts(alloc: Global, wire: &Wire, bits: Bits) -> Result<Wire, Memory>
    ensures value { IfOk result (λ begun. begun ≡
        record wire.now { attributes = with_attribute (init_attribute bits) wire.now.attributes }) }
{
    let init = Attribute {
        name: Text::from_slice(alloc, b"\\init")?,
        value: Value::Bits(bits, false),
    };
    Ok(Wire {
        name: wire.name.copy()?,
        width: wire.width,
        offset: wire.offset,
        upto: wire.upto,
        signed: wire.signed,
        role: wire.role,
        number: wire.number,
        attributes: with_attribute(&wire.attributes, init)?,
    })
}

/// The attributes with this one in the place of the first of its name, or last.
fn with_attribute(attributes: &Seq<Attribute>, put: Attribute) -> Result<Seq<Attribute>, Memory>
    ensures value { IfOk result (λ made. made ≡ with_attribute put attributes.now) }
{
    let mut made = attributes.copy()?.into_vec();
    match place_of(made.as_slice(), put.name.as_slice()) {
        Some(place) => replace(&mut made, place, put),
        None => made.push(put)?,
    }
    Ok(Seq::from_vec(made))
}

/// The place of the first attribute of this name.
fn place_of(attributes: &[Attribute], name: &[u8]) -> Option<usize>
    ensures value { result ≡ place_of name.now attributes.now }
    ensures within { IfSome result (λ place. place < length attributes.now) }
{
    for (place, attribute) in attributes.iter().enumerate() {
        if attribute.name.as_slice() == name {
            return Some(place);
        }
    }
    None
}

/// Puts the attribute in the place of another.
fn replace(attributes: &mut Vec<Attribute>, place: usize, put: Attribute)
    requires within { place < vec_len attributes.old }
    ensures value { attributes.new.items ≡ slice_set attributes.old.items place put }
{
    attributes[place] = put;
}
