//! Parts of words, and words that are put together.

ghost use Rattle.std.specs.Prelude.{◌≡◌, ◌++◌, IfOk, drop, replicate, take};
ghost use Rattle.rtl_sig.specs.declared.sig.SigBit.TheVariants.{Fixed};

use rtl_bits::{Bit, Memory};
use rtl_sig::{SigBit, SigSpec};
use std::alloc::Global;

/// So many equal constants.
pub fn filled(alloc: Global, bit: Bit, width: usize) -> Result<SigSpec, Memory>
    ensures value { IfOk result (λ word. word ≡ replicate width (Fixed bit)) }
{
    let bits = vec![in alloc; SigBit::Fixed(bit); width]?;
    SigSpec::from_vec(bits)
}

/// A word with another one on top of it.
pub fn joined(alloc: Global, below: &[SigBit], above: &[SigBit]) -> Result<SigSpec, Memory>
    ensures value { IfOk result (λ word. word ≡ below.now ++ above.now) }
{
    let mut bits = Vec::from_slice(alloc, below)?;
    bits.extend_from_slice(above)?;
    SigSpec::from_vec(bits)
}

/// The lowest bits of a word, as far as it goes.
pub fn take_low(bits: &[SigBit], width: usize) -> &[SigBit]
    ensures value { result.now ≡ take width bits.now }
{
    if width < bits.len() {
        &bits[..width]
    } else {
        bits
    }
}

/// The bits of a word but for the lowest ones.
pub fn drop_low(bits: &[SigBit], width: usize) -> &[SigBit]
    ensures value { result.now ≡ drop width bits.now }
{
    if width < bits.len() {
        &bits[width..]
    } else {
        &[]
    }
}
