//! Runs of equal enable bits.

ghost use Rattle.std.specs.Prelude.{◌≡◌, ◌≤◌, IfOk, length, take, drop};
ghost use Rattle.net_model.specs.Mem.Expand.{low_bit, run_length, run_lengths};

use rtl_bits::{Bit, Memory};
use rtl_sig::SigBit;
use std::alloc::Global;

/// So many low bits of a signal, and the others.
pub(crate) fn cut(bits: &[SigBit], count: usize) -> (&[SigBit], &[SigBit])
    ensures low { result.0.now ≡ take count bits.now }
    ensures high { result.1.now ≡ drop count bits.now }
{
    bits.split_at(count.min(bits.len()))
}

/// The lowest bit of a signal.
pub(crate) fn low_bit(bits: &[SigBit]) -> SigBit
    ensures value { result ≡ low_bit bits.now }
{
    match bits.first() {
        Some(bit) => *bit,
        None => SigBit::Fixed(Bit::X),
    }
}

/// How many bits from the first one on are equal to this one.
fn run_length(first: SigBit, bits: &[SigBit]) -> usize
    ensures value { result ≡ run_length first bits.now }
    ensures few { result ≤ length bits.now }
{
    let mut count = 0;
    for bit in bits {
        if *bit != first {
            return count;
        }
        count += 1;
    }
    count
}

/// The lengths of the runs of equal bits.
pub(crate) fn run_lengths(alloc: Global, bits: &[SigBit]) -> Result<Vec<usize>, Memory>
    ensures value { IfOk result (λ runs. runs.items ≡ run_lengths (length bits.now) bits.now) }
{
    let mut runs = Vec::new(alloc);
    let mut at = 0;
    while at < bits.len() {
        let here = cut(bits, at).1;
        let count = run_length(low_bit(here), cut(here, 1).1);
        runs.push(count + 1)?;
        at += count + 1;
    }
    Ok(runs)
}
