//! What is known of a list of bits.

ghost use Rattle.std.specs.Prelude.{◌≡◌};
ghost use Rattle.rtl_bits.specs.Knowledge.{all_known};

use crate::bit::Bit;

/// Whether each bit of the list is 0 or 1.
pub fn all_known(bits: &[Bit]) -> bool
    ensures value { result ≡ all_known bits.now }
{
    bits.iter().all(|bit| bit.known())
}
