//! Sets of bits, and what they have of signals.

ghost use Rattle.std.specs.Prelude.{◌≡◌, List, IfOk};
ghost use Rattle.std.specs.List.{list_any};
ghost use Rattle.rtl_sig.specs.declared.sig.WireBit.{WireBit};
ghost use Rattle.rtl_ir.specs.Signals.{has_bit, wire_bits};
ghost use Rattle.proc_reset.specs.Reads.{AreIn, is_among};

use rtl_bits::Memory;
use rtl_sig::{SigBit, WireBit};
use std::alloc::Global;
use std::collections::HashSet;

/// A set of bits.
pub(crate) type BitSet = HashSet<WireBit>;

/// The set of these bits.
pub(crate) fn set_of(alloc: Global, bits: &[WireBit]) -> Result<BitSet, Memory>
    ensures value { IfOk result (λ set. AreIn set bits.now) }
{
    let mut set = HashSet::new(alloc);
    for at in (0..bits.len()).rev() {
        set.insert(bits[at])?;
    }
    Ok(set)
}

/// The set of the bits of wires in the signal.
pub(crate) fn set_of_signal(alloc: Global, signal: &[SigBit]) -> Result<BitSet, Memory>
    ensures value { IfOk result (λ set. AreIn set (wire_bits signal.now)) }
{
    let mut set = HashSet::new(alloc);
    for at in (0..signal.len()).rev() {
        if let SigBit::Wire(bit) = signal[at] {
            set.insert(bit)?;
        }
    }
    Ok(set)
}

/// Whether the set has one of these bits.
pub(crate) fn has_one(set: &BitSet, bits: &[WireBit]) -> bool
    ensures value { (all : List WireBit) → AreIn set.now all → result ≡ list_any (has_bit all) bits.now }
{
    for bit in bits {
        if set.contains(bit) {
            return true;
        }
    }
    false
}

/// Whether the set has a bit of the signal.
pub(crate) fn meets(set: &BitSet, signal: &[SigBit]) -> bool
    ensures value { (all : List WireBit) → AreIn set.now all → result ≡ list_any (is_among all) signal.now }
{
    for place in signal {
        if has_place(set, place) {
            return true;
        }
    }
    false
}

/// Whether the place is a bit of the set.
fn has_place(set: &BitSet, place: &SigBit) -> bool
    ensures value { (all : List WireBit) → AreIn set.now all → result ≡ is_among all place.now }
{
    match place {
        SigBit::Fixed(_) => false,
        SigBit::Wire(bit) => set.contains(bit),
    }
}
