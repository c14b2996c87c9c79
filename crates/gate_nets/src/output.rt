//! Values that are given to outputs.

ghost use Rattle.std.specs.Prelude.{◌≡◌, OnOk};
ghost use Rattle.net_index.specs.Builder.{IsInLimits};
ghost use Rattle.gate_nets.specs.Give.{give_to};

use net_index::Builder;
use rtl_bits::{Bit, Memory};
use rtl_sig::{SigBit, SigSpec};
use std::alloc::Global;

/// Connects the signal to the bits, which are cut to its width or filled with 0.
pub fn give(
    alloc: Global,
    y: &[SigBit],
    bits: &[SigBit],
    builder: &mut Builder,
) -> Result<(), Memory>
    ensures exact { OnOk result (builder.new ≡ give_to y.now bits.now builder.old) }
    ensures within { IsInLimits builder.old → OnOk result (IsInLimits builder.new) }
{
    let mut wide = Vec::from_slice(alloc, bits)?;
    wide.resize(y.len(), SigBit::Fixed(Bit::S0))?;
    let left = SigSpec::from_slice(alloc, y)?;
    builder.connect(&left, &SigSpec::from_vec(wide)?)
}
