//! The first driver of each bit.

ghost use Rattle.std.specs.Prelude.{◌≡◌, ◌++◌, ℕ, false, not, true, List, IfOk, OnOk, length, slice_index_or};
ghost use Rattle.std.specs.Prelude.{slice_set};
ghost use Rattle.rtl_ir.specs.Flat.Cell.{listed};
ghost use Rattle.rtl_ir.specs.Flat.Place.{Place};
ghost use Rattle.flat_net.specs.declared.net.Output.{Output};
ghost use Rattle.flat_net.specs.declared.leaves.HeldBit.{HeldBit};
ghost use Rattle.flat_net.specs.declared.memory.WordBit.{WordBit};
ghost use Rattle.flat_net.specs.declared.net.StoreBit.{StoreBit};
ghost use Rattle.flat_net.specs.Parts.{parts_rows};
ghost use Rattle.flat_net.specs.Points.{AreApart};
ghost use Rattle.flat_net.specs.Within.{ArePartsWithin};
ghost use Rattle.sim_eval.specs.First.{IsFirstOf, firsts, marked, marked_ports, unmarked, unmarked_port};
ghost use Rattle.sim_eval.specs.First.{unmarked_ports};
ghost use Rattle.sim_eval.specs.Shown.{found};

use flat_net::{HeldBit, Output, Part, ReadPort, StoreBit, WordBit};
use rtl_bits::{Memory, Seq};
use std::alloc::Global;

/// Marks the number. Answers whether it had no mark.
fn mark(seen: &mut [bool], number: u32) -> bool
    ensures value { seen.new ≡ slice_set seen.old number true }
    ensures was { result ≡ not (slice_index_or seen.old number false) }
{
    let number = number as usize;
    if number >= seen.len() {
        return true;
    }
    let was = seen[number];
    seen[number] = true;
    !was
}

/// The bits of an output whose numbers have no mark. They get one.
fn first_outputs(
    alloc: Global,
    outputs: &[Output],
    seen: &mut [bool],
) -> Result<Seq<Output>, Memory>
    ensures value { IfOk result (λ kept. kept ≡ unmarked (λ (o : Output). o.number) seen.old outputs.now) }
    ensures seen { OnOk result (seen.new ≡ marked (λ (o : Output). o.number) seen.old outputs.now) }
{
    let mut kept = Seq::make(alloc);
    for output in outputs {
        if mark(seen, output.number) {
            kept.push(*output)?;
        }
    }
    Ok(kept)
}

/// The bits of a storage cell whose numbers have no mark. They get one.
fn first_bits(alloc: Global, bits: &[StoreBit], seen: &mut [bool]) -> Result<Seq<StoreBit>, Memory>
    ensures value { IfOk result (λ kept. kept ≡ unmarked (λ (b : StoreBit). b.number) seen.old bits.now) }
    ensures seen { OnOk result (seen.new ≡ marked (λ (b : StoreBit). b.number) seen.old bits.now) }
{
    let mut kept = Seq::make(alloc);
    for bit in bits {
        if mark(seen, bit.number) {
            kept.push(*bit)?;
        }
    }
    Ok(kept)
}

/// The bits that a rule updates whose numbers have no mark. They get one.
fn first_held(alloc: Global, bits: &[HeldBit], seen: &mut [bool]) -> Result<Seq<HeldBit>, Memory>
    ensures value { IfOk result (λ kept. kept ≡ unmarked (λ (b : HeldBit). b.number) seen.old bits.now) }
    ensures seen { OnOk result (seen.new ≡ marked (λ (b : HeldBit). b.number) seen.old bits.now) }
{
    let mut kept = Seq::make(alloc);
    for bit in bits {
        if mark(seen, bit.number) {
            kept.push(*bit)?;
        }
    }
    Ok(kept)
}

/// The bits of words whose numbers have no mark. They get one.
fn first_words(alloc: Global, bits: &[WordBit], seen: &mut [bool]) -> Result<Seq<WordBit>, Memory>
    ensures value { IfOk result (λ kept. kept ≡ unmarked (λ (b : WordBit). b.number) seen.old bits.now) }
    ensures seen { OnOk result (seen.new ≡ marked (λ (b : WordBit). b.number) seen.old bits.now) }
{
    let mut kept = Seq::make(alloc);
    for bit in bits {
        if mark(seen, bit.number) {
            kept.push(*bit)?;
        }
    }
    Ok(kept)
}

/// The read ports without the bits whose numbers have a mark or that an earlier one drives. They get one.
fn first_ports(
    alloc: Global,
    ports: &[ReadPort],
    seen: &mut [bool],
) -> Result<Seq<ReadPort>, Memory>
    ensures value { IfOk result (λ kept. kept ≡ unmarked_ports seen.old ports.now) }
    ensures seen { OnOk result (seen.new ≡ marked_ports seen.old ports.now) }
{
    let mut kept = Seq::make(alloc);
    for port in ports {
        let first = first_of_port(alloc, port, seen)?;
        kept.push(first)?;
    }
    Ok(kept)
}

/// The read port without the bits whose numbers have a mark. They get one.
fn first_of_port(alloc: Global, port: &ReadPort, seen: &mut [bool]) -> Result<ReadPort, Memory>
    ensures value { IfOk result (λ kept. kept ≡ unmarked_port seen.old port.now) }
    ensures seen { OnOk result (seen.new ≡ marked (λ (o : Output). o.number) seen.old port.now.outputs) }
{
    let address = Seq::from_slice(alloc, port.address.as_slice())?;
    let outputs = first_outputs(alloc, port.outputs.as_slice(), seen)?;
    Ok(ReadPort { address, outputs })
}

/// The part without the bits whose numbers have a mark. The others get one.
fn first_of_part(alloc: Global, part: Part, seen: &mut [bool]) -> Result<Option<Part>, Memory>
    ensures first { IfOk result (IsFirstOf seen.old seen.new part) }
{
    match part {
        Part::Given(output) => Ok(mark(seen, output.number).then_some(Part::Given(output))),
        Part::Joined(join) => Ok(mark(seen, join.to).then_some(Part::Joined(join))),
        Part::Logic(mut cell) => {
            cell.outputs = first_outputs(alloc, cell.outputs.as_slice(), seen)?;
            Ok(Some(Part::Logic(cell)))
        }
        Part::Storage(mut cell) => {
            cell.bits = first_bits(alloc, cell.bits.as_slice(), seen)?;
            Ok(Some(Part::Storage(cell)))
        }
        Part::Tree(mut tree) => {
            tree.outputs = first_outputs(alloc, tree.outputs.as_slice(), seen)?;
            Ok(Some(Part::Tree(tree)))
        }
        Part::Held(mut held) => {
            held.bits = first_held(alloc, held.bits.as_slice(), seen)?;
            Ok(Some(Part::Held(held)))
        }
        Part::Raced(mut raced) => {
            raced.bits = first_held(alloc, raced.bits.as_slice(), seen)?;
            Ok(Some(Part::Raced(raced)))
        }
        Part::Remembered(mut words) => {
            words.bits = first_words(alloc, words.bits.as_slice(), seen)?;
            Ok(Some(Part::Remembered(words)))
        }
        Part::Fetched(mut fetched) => {
            fetched.ports = first_ports(alloc, fetched.ports.as_slice(), seen)?;
            Ok(Some(Part::Fetched(fetched)))
        }
    }
}

/// The parts without the bits whose numbers have a mark or were driven before. They get one.
fn first_of_parts(alloc: Global, parts: Seq<Part>, seen: &mut [bool]) -> Result<Seq<Part>, Memory>
    ensures rows { IfOk result (λ kept. (ps : List Place) → AreApart ps → length ps ≡ length seen.old →
        ArePartsWithin (length ps) parts →
        parts_rows ps kept ≡ firsts (found false ps seen.old) (parts_rows ps parts)) }
    ensures within { IfOk result (λ kept. (count : ℕ) → ArePartsWithin count parts → ArePartsWithin count kept) }
{
    let mut kept = Seq::make(alloc);
    for part in parts.into_vec() {
        let first = first_of_part(alloc, part, seen)?;
        push_some(&mut kept, first)?;
    }
    Ok(kept)
}

/// Puts the part last, where there is one.
fn push_some(kept: &mut Seq<Part>, part: Option<Part>) -> Result<(), Memory>
    ensures ok { OnOk result (kept.new ≡ kept.old ++ listed part) }
{
    match part {
        Some(part) => kept.push(part),
        None => Ok(()),
    }
}

/// The parts without the bits that an earlier one drives, of this many bits.
pub(crate) fn first_drivers(
    alloc: Global,
    parts: Seq<Part>,
    count: usize,
) -> Result<Seq<Part>, Memory>
    ensures rows { IfOk result (λ kept. (ps : List Place) → AreApart ps → length ps ≡ count →
        ArePartsWithin (length ps) parts → parts_rows ps kept ≡ firsts (λ _. false) (parts_rows ps parts)) }
    ensures within { IfOk result (λ kept. (count : ℕ) → ArePartsWithin count parts → ArePartsWithin count kept) }
{
    let mut seen = vec![in alloc; false; count]?;
    first_of_parts(alloc, parts, &mut seen)
}
