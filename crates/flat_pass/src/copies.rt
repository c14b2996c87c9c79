//! Copies of what a child has.

ghost use Rattle.std.specs.Prelude.{◌≡◌, ◌+◌, IfOk, length, map};
ghost use Rattle.flat_pass.specs.ByName.{names_now};
ghost use Rattle.flat_pass.specs.Copies.{
  copied_bit,
  copied_link,
  copied_params,
  copied_pin,
  copied_signal,
  renamed,
  renamed_param,
  renamed_value,
};
ghost use Rattle.flat_pass.specs.Renames.{copying};

use crate::by_name::ByName;
use crate::names::store_names;
use crate::renames::Renames;
use cell_types::{CellKind, ParamName};
use rtl_bits::{Copied, Memory, Seq, Text};
use rtl_ir::{CellParam, Link, Pin, Store, Value};
use rtl_sig::{SigBit, SigSpec, WireBit};
use std::alloc::Global;

impl<'a> Renames<'a> {
    /// What the copies of the cells of an instance of this name go by, where the child has these memories, and their
    /// copies these names.
    pub(crate) fn of(
        alloc: Global,
        instance: &'a [u8],
        first: u32,
        stores: &'a [Store],
        copies: Seq<Text>,
    ) -> Result<Renames<'a>, Memory>
        requires paired { length copies ≡ length stores.now }
        ensures value { IfOk result (λ renames. copying renames ≡ record {
          instance = instance.now;
          first = first;
          memories = map (λ s. s.name) stores.now;
          copies = copies;
        }) }
    {
        let memories = store_names(alloc, stores)?;
        let places = ByName::of(alloc, memories.as_slice())?;
        Ok(Renames {
            instance,
            first,
            memories,
            places,
            copies,
        })
    }
}

/// A bit of a signal, where the wires stand from this place on. More than 2^32 wires are taken for want of memory.
fn copied_bit(first: u32, bit: SigBit) -> Result<SigBit, Memory>
    ensures value { IfOk result (λ copy. copy ≡ copied_bit first bit) }
{
    match bit {
        SigBit::Fixed(value) => Ok(SigBit::Fixed(value)),
        SigBit::Wire(at) => {
            let wire = first.checked_add(at.wire).ok_or(Memory)?;
            Ok(SigBit::Wire(WireBit { wire, at: at.at }))
        }
    }
}

/// A signal, where the wires stand from this place on.
fn copied_signal(alloc: Global, first: u32, signal: &[SigBit]) -> Result<SigSpec, Memory>
    ensures value { IfOk result (λ copy. copy ≡ copied_signal first signal.now) }
{
    let mut copy = SigSpec::with_capacity(alloc, signal.len())?;
    for bit in signal {
        copy.push(copied_bit(first, *bit)?)?;
    }
    Ok(copy)
}

/// A connection on the copied wires.
pub(crate) fn copied_link(alloc: Global, first: u32, link: &Link) -> Result<Link, Memory>
    ensures value { IfOk result (λ copy. copy ≡ copied_link first link.now) }
{
    Ok(Link {
        left: copied_signal(alloc, first, link.left.as_slice())?,
        right: copied_signal(alloc, first, link.right.as_slice())?,
    })
}

/// Pins on the copied wires.
pub(crate) fn copied_pins(alloc: Global, first: u32, pins: &[Pin]) -> Result<Seq<Pin>, Memory>
    ensures value { IfOk result (λ copies. copies ≡ map (copied_pin first) pins.now) }
{
    let mut copies = Vec::with_capacity(alloc, pins.len())?;
    for pin in pins {
        copies.push(Pin {
            name: pin.name.copy()?,
            sig: copied_signal(alloc, first, pin.sig.as_slice())?,
        })?;
    }
    Ok(Seq::from_vec(copies))
}

/// The parameters of a cell of this kind: those of a memory's cell name the copy.
pub(crate) fn copied_params(
    alloc: Global,
    renames: &Renames,
    kind: Option<CellKind>,
    params: &Seq<CellParam>,
) -> Result<Seq<CellParam>, Memory>
    ensures value { IfOk result (λ copies. copies ≡ copied_params (copying renames.now) kind params.now) }
{
    match kind {
        Some(CellKind::Memory(_)) => renamed_params(alloc, renames, params.as_slice()),
        _ => params.copy(),
    }
}

/// The parameters, of which `\MEMID` names the copy.
fn renamed_params(
    alloc: Global,
    renames: &Renames,
    params: &[CellParam],
) -> Result<Seq<CellParam>, Memory>
    ensures value { IfOk result (λ copies. copies ≡ map (renamed_param (copying renames.now)) params.now) }
{
    let mut copies = Vec::with_capacity(alloc, params.len())?;
    for param in params {
        copies.push(renamed_param(renames, param)?)?;
    }
    Ok(Seq::from_vec(copies))
}

/// The parameter, which names the copy where it is `\MEMID`.
fn renamed_param(renames: &Renames, param: &CellParam) -> Result<CellParam, Memory>
    ensures value { IfOk result (λ copy. copy ≡ renamed_param (copying renames.now) param.now) }
{
    if param.name.as_slice() != ParamName::Memid.text() {
        return param.copy();
    }
    Ok(CellParam {
        name: param.name.copy()?,
        value: renamed_value(renames, &param.value)?,
        signed: param.signed,
    })
}

/// The value, which names the copy where it is a string.
fn renamed_value(renames: &Renames, value: &Value) -> Result<Value, Memory>
    ensures value { IfOk result (λ copy. copy ≡ renamed_value (copying renames.now) «value».now) }
{
    match value {
        Value::Chars(name) => Ok(Value::Chars(renamed(renames, name)?)),
        other => other.copy(),
    }
}

/// The name of the copy of the memory of this name, the name itself where no memory has it.
fn renamed(renames: &Renames, name: &Text) -> Result<Text, Memory>
    ensures value { IfOk result (λ copy.
        copy ≡ renamed (names_now renames.now.memories.items) renames.now.copies name.now) }
{
    let copies = renames.copies.as_slice();
    match renames.places.find(name.as_slice()) {
        Some(at) => copies[at].copy(),
        None => name.copy(),
    }
}
