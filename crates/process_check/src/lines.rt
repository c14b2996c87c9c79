//! What may be wrong with the sides of a line that connects, assigns or updates.

ghost use Rattle.std.specs.Prelude.{◌≡◌};
ghost use Rattle.rtl_ir.specs.Faults.Links.{is_uneven};
ghost use Rattle.rtl_ir.specs.Signals.{has_constant};

use rtl_ir::Link;
use rtl_sig::SigBit;

/// Whether the sides have different widths.
pub fn is_uneven(link: &Link) -> bool
    ensures value { result ≡ is_uneven link.now }
{
    link.left.as_slice().len() != link.right.as_slice().len()
}

/// Whether the signal has a constant at some place.
pub fn has_constant(bits: &[SigBit]) -> bool
    ensures value { result ≡ has_constant bits.now }
{
    bits.iter().any(|bit| matches!(bit, SigBit::Fixed(_)))
}
