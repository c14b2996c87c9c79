//! The runs that a signal is cut into.

ghost use Rattle.std.specs.Prelude.{◌≡◌, IfOk, map};
ghost use Rattle.rtl_write.specs.Signal.{goes_on, runs_of};

use rtl_bits::Memory;
use rtl_sig::SigBit;
use std::alloc::Global;

/// The most bits of one value.
pub const MAX_RUN: usize = 1_048_576;

/// Whether the bit goes on with a run of so many bits that ends in `last`.
fn goes_on(last: SigBit, count: usize, bit: SigBit) -> bool
    ensures value { result ≡ goes_on last count bit }
{
    match (last, bit) {
        (SigBit::Fixed(_), SigBit::Fixed(_)) => count < MAX_RUN,
        (SigBit::Wire(a), SigBit::Wire(b)) => {
            b.wire == a.wire && u64::from(b.at) == u64::from(a.at) + 1
        }
        _ => false,
    }
}

/// The runs of a signal, the topmost first.
pub fn runs_in(alloc: Global, bits: &[SigBit]) -> Result<Vec<&[SigBit]>, Memory>
    ensures value { IfOk result (λ runs. map (λ run. run.now) runs.items ≡ runs_of bits.now) }
{
    let mut runs = Vec::new(alloc);
    if bits.is_empty() {
        return Ok(runs);
    }
    let mut from = 0;
    for at in 1..bits.len() {
        if !goes_on(bits[at - 1], at - from, bits[at]) {
            runs.push(&bits[from..at])?;
            from = at;
        }
    }
    runs.push(&bits[from..])?;
    runs.reverse();
    Ok(runs)
}
