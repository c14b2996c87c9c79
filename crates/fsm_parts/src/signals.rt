//! Signals, and what they are among the leaves of a tree.

ghost use Rattle.std.specs.Prelude.{◌≡◌, IfOk, map};
ghost use Rattle.std.specs.List.{list_all, list_any};
ghost use Rattle.rtl_bits.specs.Knowledge.{is_known};
ghost use Rattle.rtl_ir.specs.declared.module.Module.{Module};
ghost use Rattle.rtl_ir.specs.declared.wire.Wire.{Wire};
ghost use Rattle.rtl_ir.specs.Follow.{follow};
ghost use Rattle.rtl_ir.specs.Signals.{is_all_constant, constant_of, same_signal};
ghost use Rattle.rtl_ir.specs.Types.{Ports};
ghost use Rattle.net_index.specs.Drivers.{AreDrivers};
ghost use Rattle.net_model.specs.Fsm.Find.{is_leaf, is_state_constant, is_unknown, whole_wire};

use net_index::{Drivers, whole};
use rtl_bits::Memory;
use rtl_ir::{constant_of, is_all_constant, same_signal};
use rtl_sig::{SigBit, SigSpec};
use std::alloc::Global;

/// Whether each bit is a known constant.
fn are_known(signal: &[SigBit]) -> bool
    ensures value { result ≡ list_all (λ s. is_known (constant_of s)) signal.now }
{
    for bit in signal {
        if !constant_of(*bit).known() {
            return false;
        }
    }
    true
}

/// Whether a bit is a known constant.
fn has_known(signal: &[SigBit]) -> bool
    ensures value { result ≡ list_any (λ s. is_known (constant_of s)) signal.now }
{
    for bit in signal {
        if constant_of(*bit).known() {
            return true;
        }
    }
    false
}

/// Whether all bits are known constants.
pub fn is_state_constant(signal: &[SigBit]) -> bool
    ensures value { result ≡ is_state_constant signal.now }
{
    is_all_constant(signal) && are_known(signal)
}

/// Whether all bits are unknown constants.
fn is_unknown(signal: &[SigBit]) -> bool
    ensures value { result ≡ is_unknown signal.now }
{
    is_all_constant(signal) && !has_known(signal)
}

/// Whether it is a leaf of a tree: a whole known constant, a whole unknown constant, or the state.
pub fn is_leaf(state: &[SigBit], signal: &[SigBit]) -> bool
    ensures value { result ≡ is_leaf state.now signal.now }
{
    is_state_constant(signal) || is_unknown(signal) || same_signal(state, signal)
}

/// Where the bits of the signal lead back to.
pub fn followed(alloc: Global, index: &Drivers, signal: &[SigBit]) -> Result<SigSpec, Memory>
    ensures value { IfOk result (λ bits. (ports : Ports) (m : Module) → AreDrivers index.now ports m →
        bits ≡ map (follow m.links) signal.now) }
{
    let mut bits = SigSpec::make(alloc);
    for bit in signal {
        bits.push(index.follow(*bit))?;
    }
    Ok(bits)
}

/// The whole wire at a place.
pub fn whole_wire(alloc: Global, wire: u32, width: u32) -> Result<SigSpec, Memory>
    ensures value { IfOk result (λ bits. (w : Wire) → w.width ≡ width → bits ≡ whole_wire wire w) }
{
    whole(alloc, wire, width)
}
