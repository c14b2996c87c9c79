//! The read ports of memories.

ghost use Rattle.std.specs.Prelude.{◌≡◌, ◌≤◌, ◌^◌, List, IfOk, flat_map, length, map, slice_index_or};
ghost use Rattle.std.specs.List.{AllByRecursion};
ghost use Rattle.std.specs.Option.{option_map_or};
ghost use Rattle.rtl_bits.specs.declared.bit.Bit.{Bit};
ghost use Rattle.rtl_ir.specs.Flat.Place.{Place};
ghost use Rattle.net_model.specs.Run.{Time};
ghost use Rattle.net_model.specs.Words.{fetched_of};
ghost use Rattle.flat_net.specs.Points.{AreApart};
ghost use Rattle.flat_net.specs.Words.{port_rows};
ghost use Rattle.flat_net.specs.Within.{IsFetchedWithin, IsReadPortWithin};
ghost use Rattle.sim_eval.specs.Advance.{Advances, AreFewer};
ghost use Rattle.sim_eval.specs.Fetched.{IsNumber, known_digit, number_column, number_fetched};
ghost use Rattle.sim_eval.specs.Numbers.{number_word};

use crate::cell::{Worked, put_all};
use crate::values::{bit_at, read};
use flat_net::{Fetched, Point, ReadPort};
use rtl_bits::{Bit, Bits, Memory, Seq};
use std::alloc::Global;

/// Gives the bits that the read ports drive their values, where they had none so far. Answers whether one of them got
/// one.
pub(crate) fn update_fetched(
    alloc: Global,
    fetched: &Fetched,
    now: &mut [Bit],
) -> Result<bool, Memory>
    ensures fewer { IfOk result (AreFewer now.old now.new) }
    ensures advances { IfOk result (λ changed. (ps : List Place) → AreApart ps → length ps ≡ length now.old →
        IsFetchedWithin (length ps) fetched.now → (t : Time Place) →
        Advances ps t (flat_map (port_rows ps fetched.now) fetched.now.ports) now.old now.new changed) }
{
    update_ports(alloc, fetched, fetched.ports.as_slice(), now)
}

/// Gives the bits that these read ports drive their values. Answers whether one of them got one.
fn update_ports(
    alloc: Global,
    fetched: &Fetched,
    ports: &[ReadPort],
    now: &mut [Bit],
) -> Result<bool, Memory>
    ensures fewer { IfOk result (AreFewer now.old now.new) }
    ensures advances { IfOk result (λ changed. (ps : List Place) → AreApart ps → length ps ≡ length now.old →
        IsFetchedWithin (length ps) fetched.now → AllByRecursion (IsReadPortWithin (length ps)) ports.now →
        (t : Time Place) →
        Advances ps t (flat_map (port_rows ps fetched.now) ports.now) now.old now.new changed) }
{
    let mut changed = false;
    for port in ports {
        changed |= update_port(alloc, fetched, port, now)?;
    }
    Ok(changed)
}

/// Gives the bits that a read port drives their values. Answers whether one of them got one.
fn update_port(
    alloc: Global,
    fetched: &Fetched,
    port: &ReadPort,
    now: &mut [Bit],
) -> Result<bool, Memory>
    ensures fewer { IfOk result (AreFewer now.old now.new) }
    ensures advances { IfOk result (λ changed. (ps : List Place) → AreApart ps → length ps ≡ length now.old →
        IsFetchedWithin (length ps) fetched.now → IsReadPortWithin (length ps) port.now → (t : Time Place) →
        Advances ps t (port_rows ps fetched.now port.now) now.old now.new changed) }
{
    let word = word_of(alloc, now, fetched, port.address.as_slice())?;
    Ok(put_all(port.outputs.as_slice(), &Worked::Word(word), now))
}

/// The word at an address. The address is read as a number once.
fn word_of(
    alloc: Global,
    values: &[Bit],
    fetched: &Fetched,
    address: &[Point],
) -> Result<Bits, Memory>
    ensures value { IfOk result (λ word. word ≡ map (number_fetched values.now fetched.now.first address.now)
        fetched.now.columns) }
{
    let place = place_of(values, address, fetched.first);
    let mut word = Seq::make(alloc);
    for column in fetched.columns.as_slice() {
        word.push(bit_of(values, column.as_slice(), place))?;
    }
    Ok(word)
}

/// The place of the word at an address, behind the first one; none where the address is unknown or below it.
fn place_of(values: &[Bit], address: &[Point], first: u32) -> Option<u128>
    ensures value { (words : List Bit) → length words ≤ 2 ^ 64 →
        option_map_or (λ place. slice_index_or words place Bit.X) result Bit.X ≡ fetched_of
        (number_word values.now address.now) first words }
{
    number_of(values, address)?.checked_sub(u128::from(first))
}

/// The number that an address is, where all its bits are known. One of 2^100 or more, at which no word can stand, is
/// taken
/// as 2^100.
fn number_of(values: &[Bit], address: &[Point]) -> Option<u128>
    ensures value { IsNumber (2 ^ 100) (number_word values.now address.now) result }
{
    let mut number = 0;
    for at in (0..address.len()).rev() {
        let digit = digit_of(read(values, address[at]))?;
        number = (2 * number + digit).min(1 << 100);
    }
    Some(number)
}

/// A known bit as a number.
fn digit_of(bit: Bit) -> Option<u128>
    ensures value { result ≡ known_digit bit }
{
    match bit {
        Bit::S0 => Some(0),
        Bit::S1 => Some(1),
        _ => None,
    }
}

/// What the bit has that stands at a place of a column, x where there is none.
fn bit_of(values: &[Bit], column: &[u32], place: Option<u128>) -> Bit
    ensures value { result ≡ option_map_or (λ place. slice_index_or (number_column values.now column.now) place Bit.X)
        place Bit.X }
{
    match place {
        Some(place) if place < column.len() as u128 => bit_at(values, column[place as usize]),
        _ => Bit::X,
    }
}
