//! Bits at which new runs begin.

ghost use Rattle.std.specs.Prelude.{◌≡◌, ◌&&◌, ◌||◌, ◌+◌, ◌==◌, not, List, IfOk, OnOk};
ghost use Rattle.std.specs.HashSet.{contains};
ghost use Rattle.std.specs.List.{list_any};
ghost use Rattle.rtl_ir.specs.declared.module.Link.{Link as OneLink};
ghost use Rattle.rtl_ir.specs.Signals.{same_bit};
ghost use Rattle.rtl_sig.specs.declared.sig.WireBit.{WireBit};
ghost use Rattle.net_model.specs.Proc.Mux.{goes_on};
ghost use Rattle.proc_mux.specs.Begins.{AreBegins, IsNext, parts};
ghost use Rattle.proc_mux.specs.Lines.{is_bit};

use rtl_bits::Memory;
use rtl_ir::Link;
use rtl_sig::{SigBit, WireBit};
use std::alloc::Global;
use std::collections::HashSet;

/// Bits that are in no run with the bit before them, since a line names one of the two alone.
pub(crate) type Begins = HashSet<WireBit>;

/// The bits that some of the lines part from the bit before them.
pub(crate) fn begins_of(alloc: Global, lines: &[Link]) -> Result<Begins, Memory>
    ensures begins { IfOk result (λ begins. AreBegins begins lines.now) }
{
    let mut begins = HashSet::new(alloc);
    for line in lines {
        put_line(
            alloc,
            &mut begins,
            line.left.as_slice(),
            line.right.as_slice(),
        )?;
    }
    Ok(begins)
}

/// Puts in the bits that a line with these sides parts from the bit before them.
fn put_line(
    alloc: Global,
    begins: &mut Begins,
    left: &[SigBit],
    right: &[SigBit],
) -> Result<(), Memory>
    ensures begins { OnOk result ((a b : WireBit) → IsNext a b →
        contains same_bit begins.new b ≡ (contains same_bit begins.old b || parts a b left.now right.now)) }
{
    let places = &left[..left.len().min(right.len())];
    let named = bits_of(alloc, places)?;
    put_all_next(begins, &named, places)?;
    put_all_own(begins, &named, places)?;
    Ok(())
}

/// The bits at these places.
fn bits_of(alloc: Global, places: &[SigBit]) -> Result<HashSet<WireBit>, Memory>
    ensures bits { IfOk result (λ bits. (b : WireBit) →
        contains same_bit bits b ≡ list_any (λ s. is_bit s b) places.now) }
{
    let mut bits = HashSet::new(alloc);
    for place in places {
        put_bit(&mut bits, *place)?;
    }
    Ok(bits)
}

/// Puts in the bit at a place, where that is a bit of a wire.
fn put_bit(bits: &mut HashSet<WireBit>, place: SigBit) -> Result<(), Memory>
    ensures bits { OnOk result ((b : WireBit) → contains same_bit bits.new b ≡
        (contains same_bit bits.old b || is_bit place b)) }
{
    if let SigBit::Wire(bit) = place {
        bits.insert(bit)?;
    }
    Ok(())
}

/// Puts in the bits behind these places that are not named.
fn put_all_next(
    begins: &mut Begins,
    named: &HashSet<WireBit>,
    places: &[SigBit],
) -> Result<(), Memory>
    ensures begins { OnOk result ((a b : WireBit) → IsNext a b →
        contains same_bit begins.new b ≡ (contains same_bit begins.old b || list_any (λ s.
        is_bit s a && not (contains same_bit named.now b)) places.now)) }
{
    for place in places {
        put_next(begins, named, *place)?;
    }
    Ok(())
}

/// Puts in the bits at these places behind bits that are not named.
fn put_all_own(
    begins: &mut Begins,
    named: &HashSet<WireBit>,
    places: &[SigBit],
) -> Result<(), Memory>
    ensures begins { OnOk result ((a b : WireBit) → IsNext a b →
        contains same_bit begins.new b ≡ (contains same_bit begins.old b || list_any (λ s.
        is_bit s b && not (contains same_bit named.now a)) places.now)) }
{
    for place in places {
        put_own(begins, named, *place)?;
    }
    Ok(())
}

/// Puts in the bit behind a place, where it is not named.
fn put_next(begins: &mut Begins, named: &HashSet<WireBit>, place: SigBit) -> Result<(), Memory>
    ensures begins { OnOk result ((a b : WireBit) → IsNext a b →
        contains same_bit begins.new b ≡
        (contains same_bit begins.old b || (is_bit place a && not (contains same_bit named.now b)))) }
{
    let SigBit::Wire(bit) = place else {
        return Ok(());
    };
    let Some(at) = bit.at.checked_add(1) else {
        return Ok(());
    };
    let next = WireBit { wire: bit.wire, at };
    if !named.contains(&next) {
        begins.insert(next)?;
    }
    Ok(())
}

/// Puts in the bit at a place, where the bit before it is not named.
fn put_own(begins: &mut Begins, named: &HashSet<WireBit>, place: SigBit) -> Result<(), Memory>
    ensures begins { OnOk result ((a b : WireBit) → IsNext a b →
        contains same_bit begins.new b ≡
        (contains same_bit begins.old b || (is_bit place b && not (contains same_bit named.now a)))) }
{
    let SigBit::Wire(bit) = place else {
        return Ok(());
    };
    let Some(at) = bit.at.checked_sub(1) else {
        return Ok(());
    };
    let before = WireBit { wire: bit.wire, at };
    if !named.contains(&before) {
        begins.insert(bit)?;
    }
    Ok(())
}

/// Whether the second bit follows the first in one run.
pub(crate) fn goes_on(begins: &Begins, a: WireBit, b: WireBit) -> bool
    ensures value { (lines : List OneLink) → AreBegins begins.now lines → result ≡ goes_on lines a b }
{
    if is_next(a, b) {
        !begins.contains(&b)
    } else {
        false
    }
}

/// Whether the second bit is at the next place of the wire of the first.
fn is_next(a: WireBit, b: WireBit) -> bool
    ensures value { result ≡ ((a.wire == b.wire) && ((a.at + 1) == b.at)) }
{
    a.wire == b.wire && u64::from(a.at) + 1 == u64::from(b.at)
}
