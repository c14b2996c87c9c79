//! What write ports make of a bit of a word.

ghost use Rattle.std.specs.Prelude.{◌≡◌, ◌∷◌, ◌++◌, List, [], IfOk, OnOk, if◌then◌else◌, length, map};
ghost use Rattle.std.specs.List.{AllByRecursion};
ghost use Rattle.rtl_ir.specs.Flat.Place.{Place};
ghost use Rattle.net_model.specs.Words.{address_is, after_ports};
ghost use Rattle.flat_net.specs.Points.{AreApart};
ghost use Rattle.flat_net.specs.Within.{IsWritePortWithin};
ghost use Rattle.flat_net.specs.Words.{ported_of, ports_at};
ghost use Rattle.sim_eval.specs.Numbers.{number_word};
ghost use Rattle.sim_eval.specs.Shown.{shown};
ghost use Rattle.sim_eval.specs.Written.{after_port, follows_all, is_zero, may_follow, number_at, number_hit};

use crate::values::{bit_at, read};
use cell_gate::pick;
use flat_net::{Point, WordBit, WritePort};
use rtl_bits::{Bit, Memory, bit_and, bit_not, bit_xor, is_one, low_bit_of};
use std::alloc::Global;

/// What the ports make of a bit of a word at a certain edge: they write one after another.
pub(crate) fn written(
    alloc: Global,
    values: &[Bit],
    ports: &[WritePort],
    bit: &WordBit,
    old: Bit,
) -> Result<Bit, Memory>
    ensures value { IfOk result (λ value. (ps : List Place) → AreApart ps → length ps ≡ length values.now →
        AllByRecursion (IsWritePortWithin (length ps)) ports.now →
        value ≡ after_ports (shown ps values.now) bit.now.address [] (ports_at bit.now.at []
        (map (ported_of ps) ports.now)) old) }
{
    let mut writers = Vec::new(alloc);
    let mut value = old;
    for port in ports {
        value = after_port(values, port, bit, &mut writers, value)?;
    }
    Ok(value)
}

/// What a port makes of a bit of a word, behind the ports of these numbers, which may write it. Where this one may
/// write it too, its number is put last.
fn after_port(
    values: &[Bit],
    port: &WritePort,
    bit: &WordBit,
    writers: &mut Vec<u32>,
    old: Bit,
) -> Result<Bit, Memory>
    ensures value { IfOk result (λ value.
        value ≡ after_port values.now bit.now.address bit.now.at port.now writers.old.items old) }
    ensures writers { OnOk result (
        writers.new.items ≡ (if is_zero (number_hit values.now bit.now.address bit.now.at port.now) then
        writers.old.items else writers.old.items ++ port.now.number ∷ [])) }
{
    let hit = hit_of(values, port, bit);
    if hit == Bit::S0 {
        return Ok(old.seen());
    }
    let new = point_at(values, port.word.as_slice(), bit.at);
    let value = pick(hit, followed_by(port, writers.as_slice(), new), old);
    writers.push(port.number)?;
    Ok(value)
}

/// Whether a port writes a bit of a word.
fn hit_of(values: &[Bit], port: &WritePort, bit: &WordBit) -> Bit
    ensures value { result ≡ number_hit values.now bit.now.address bit.now.at port.now }
{
    let enable = point_at(values, port.enable.as_slice(), bit.at);
    if enable == Bit::S0 {
        return Bit::S0;
    }
    bit_and(
        enable,
        address_is(values, port.address.as_slice(), bit.address),
    )
}

/// The data of a port where it may follow each of the ports of these numbers, else x.
fn followed_by(port: &WritePort, writers: &[u32], new: Bit) -> Bit
    ensures value { result ≡ (if follows_all port.now.mask writers.now then new else Bit.X) }
{
    for writer in writers {
        if !may_follow(port, *writer) {
            return Bit::X;
        }
    }
    new
}

/// Whether a port may follow the one of a number.
fn may_follow(port: &WritePort, number: u32) -> bool
    ensures value { result ≡ may_follow port.now.mask number }
{
    is_one(bit_at(port.mask.as_slice(), number))
}

/// Whether an address is a number: 0 where two known bits differ or the number does not fit, 1 where all are known and
/// equal, else x.
fn address_is(values: &[Bit], address: &[Point], number: u32) -> Bit
    ensures value { result ≡ address_is (number_word values.now address.now) number }
{
    let mut all = Bit::S1;
    let mut rest = number;
    for point in address {
        let same = bit_not(bit_xor(read(values, *point), low_bit_of(u128::from(rest))));
        if same == Bit::S0 {
            return Bit::S0;
        }
        all = bit_and(all, same);
        rest /= 2;
    }
    bit_and(all, zero_bit(rest))
}

/// 1 where the number is 0, else 0.
fn zero_bit(number: u32) -> Bit
    ensures value { result ≡ address_is [] number }
{
    if number == 0 { Bit::S1 } else { Bit::S0 }
}

/// What the point at a place has, x past the end.
fn point_at(values: &[Bit], points: &[Point], at: u32) -> Bit
    ensures value { result ≡ number_at values.now points.now at }
{
    match points.get(at as usize) {
        Some(point) => read(values, *point),
        None => Bit::X,
    }
}
