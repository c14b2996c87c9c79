//! Words that are moved by the bits of a distance.

ghost use Rattle.std.specs.Prelude.{◌≡◌, Err, IfOk, OnOk};
ghost use Rattle.net_index.specs.Builder.{IsInLimits, PassesLimit};
ghost use Rattle.map_shift.specs.Shift.{either_of, lower_of, shifted_of, step_of};

use crate::moves::{Way, moved};
use gate_nets::{negate, select};
use net_index::{Builder, PassFault};
use rtl_sig::{SigBit, SigSpec, fill_of};
use std::alloc::Global;

/// Where a word is moved, and what fills the places that are left.
#[derive(Clone, Copy)]
struct Motion {
    way: Way,
    fill: SigBit,
}

/// A word moved by what a bit of the distance stands for, where the bit is 1.
fn step(
    alloc: Global,
    motion: Motion,
    place: usize,
    bits: &[SigBit],
    by: SigBit,
    builder: &mut Builder,
) -> Result<SigSpec, PassFault>
    ensures exact { IfOk result (λ word. (word, builder.new) ≡
        step_of motion.way motion.fill place bits.now by builder.old) }
    ensures over { result ≡ Err PassFault.Over →
        PassesLimit (step_of motion.way motion.fill place bits.now by builder.old).1 }
    ensures within { IsInLimits builder.old → OnOk result (IsInLimits builder.new) }
{
    let further = moved(alloc, motion.way, motion.fill, place, bits)?;
    select(alloc, bits, further.as_slice(), by, builder)
}

/// A word moved by a distance, from its lowest bit up.
#[tactic(auto, using(crate::proofs::Steps::shift_step, crate::proofs::Steps::shift_over))]
pub(crate) fn shifted(
    alloc: Global,
    way: Way,
    fill: SigBit,
    bits: &[SigBit],
    distance: &[SigBit],
    builder: &mut Builder,
) -> Result<SigSpec, PassFault>
    ensures exact { IfOk result (λ word. (word, builder.new) ≡ shifted_of way fill bits.now distance.now builder.old) }
    ensures over { result ≡ Err PassFault.Over → PassesLimit (shifted_of way fill bits.now distance.now builder.old).1 }
    ensures within { IsInLimits builder.old → OnOk result (IsInLimits builder.new) }
{
    let mut so_far = SigSpec::from_slice(alloc, bits)?;
    for (place, by) in distance.iter().enumerate() {
        let motion = Motion { way, fill };
        so_far = step(alloc, motion, place, so_far.as_slice(), *by, builder)?;
    }
    Ok(so_far)
}

/// The bits of a distance below its top one.
fn lower(distance: &[SigBit]) -> &[SigBit]
    ensures value { result.now ≡ lower_of distance.now }
{
    &distance[..distance.len().saturating_sub(1)]
}

/// A word moved right by a distance in two's complement, which is left where the distance is negative.
#[tactic(auto, using(crate::proofs::Limits::select_limits, crate::proofs::Limits::shift_limits, crate::proofs::Limits::negative_limits), unfolding(gate_nets::specs::Gate::after))]
pub(crate) fn shifted_either_way(
    alloc: Global,
    fill: SigBit,
    bits: &[SigBit],
    distance: &[SigBit],
    builder: &mut Builder,
) -> Result<SigSpec, PassFault>
    ensures exact { IfOk result (λ word. (word, builder.new) ≡ either_of fill bits.now distance.now builder.old) }
    ensures over { result ≡ Err PassFault.Over → PassesLimit (either_of fill bits.now distance.now builder.old).1 }
    ensures within { IsInLimits builder.old → OnOk result (IsInLimits builder.new) }
{
    let right = shifted(alloc, Way::Right, fill, bits, lower(distance), builder)?;
    let back = negate(alloc, distance, builder)?;
    let left = shifted(alloc, Way::Left, fill, bits, back.as_slice(), builder)?;
    let negative = fill_of(distance, true);
    select(alloc, right.as_slice(), left.as_slice(), negative, builder)
}
