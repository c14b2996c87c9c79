//! The gates of `$demux`: a word is put at one of several parts.

ghost use Rattle.std.specs.Prelude.{◌≡◌, ◌%◌, ◌==◌, if◌then◌else◌, Err, IfOk, OnOk};
ghost use Rattle.net_index.specs.Builder.{IsInLimits, PassesLimit};
ghost use Rattle.map_gates.specs.Parts.{all_parts, demux_gates, hit_of, hits_for};

use crate::bitwise::binary_gates;
use crate::choice::{above, below};
use cell_types::{BitwiseKind, GateKind};
use gate_nets::{fold, invert};
use net_index::{Builder, PassFault};
use rtl_bits::Memory;
use rtl_sig::{SigBit, SigSpec};
use std::alloc::Global;

/// The bit that is joined for the lowest digit of a number: the one bit where it is 1, else the other.
fn hit_bit(number: usize, bit: SigBit, inverse: SigBit) -> SigBit
    ensures value { result ≡ (if number % 2 == 1 then bit else inverse) }
{
    if number % 2 == 1 { bit } else { inverse }
}

/// The bits that are joined for the part of a number: those of S where the number has a 1, and else those of the
/// inverses.
#[tactic(auto, using(crate::proofs::Placing::hits_step, crate::proofs::Placing::hits_end))]
fn hits_for(
    alloc: Global,
    s: &[SigBit],
    inverses: &[SigBit],
    part: usize,
) -> Result<SigSpec, Memory>
    ensures value { IfOk result (λ hits. hits ≡ hits_for s.now inverses.now part) }
{
    let mut hits = SigSpec::make(alloc);
    let mut rest = part;
    for at in 0..s.len().min(inverses.len()) {
        hits.push(hit_bit(rest, s[at], inverses[at]))?;
        rest /= 2;
    }
    Ok(hits)
}

/// Whether S is the number of the part.
fn hit(
    alloc: Global,
    s: &[SigBit],
    inverses: &[SigBit],
    part: usize,
    builder: &mut Builder,
) -> Result<SigBit, PassFault>
    ensures exact { IfOk result (λ hit. (hit, builder.new) ≡ hit_of s.now inverses.now part builder.old) }
    ensures over { result ≡ Err PassFault.Over → PassesLimit (hit_of s.now inverses.now part builder.old).1 }
    ensures within { IsInLimits builder.old → OnOk result (IsInLimits builder.new) }
{
    let hits = hits_for(alloc, s, inverses, part)?;
    fold(alloc, BitwiseKind::And, hits.as_slice(), builder)
}

/// The parts, from the first on: for each whether S is its number, and an and-gate of that with each bit of A.
fn parts(
    alloc: Global,
    a: &[SigBit],
    s: &[SigBit],
    inverses: &[SigBit],
    y: &[SigBit],
    builder: &mut Builder,
) -> Result<(), PassFault>
    ensures exact { OnOk result (builder.new ≡ all_parts a.now s.now inverses.now y.now builder.old) }
    ensures over { result ≡ Err PassFault.Over → PassesLimit (all_parts a.now s.now inverses.now y.now builder.old) }
    ensures within { IsInLimits builder.old → OnOk result (IsInLimits builder.new) }
{
    let mut rest = y;
    for part in 0..y.len() {
        if rest.is_empty() {
            return Ok(());
        }
        let hit = hit(alloc, s, inverses, part, builder)?;
        binary_gates(
            GateKind::And,
            true,
            &[hit],
            a,
            below(rest, a.len()),
            builder,
        )?;
        rest = above(rest, a.len());
    }
    Ok(())
}

/// The gates of `$demux`: the inverses of S, and then the parts.
pub(crate) fn demux_gates(
    alloc: Global,
    a: &[SigBit],
    s: &[SigBit],
    y: &[SigBit],
    builder: &mut Builder,
) -> Result<(), PassFault>
    ensures exact { OnOk result (builder.new ≡ demux_gates a.now s.now y.now builder.old) }
    ensures over { result ≡ Err PassFault.Over → PassesLimit (demux_gates a.now s.now y.now builder.old) }
    ensures within { IsInLimits builder.old → OnOk result (IsInLimits builder.new) }
{
    let inverses = invert(alloc, s, builder)?;
    parts(alloc, a, s, inverses.as_slice(), y, builder)
}
