//! Which addresses a port can reach.

ghost use Rattle.std.specs.Prelude.{◌≡◌, ◌^◌, nat_lt};

/// Whether an address of so many bits can be the number.
#[tactic(auto, using(crate::proofs::Reaching::reached))]
pub(crate) fn reaches(number: u64, bits: usize) -> bool
    ensures value { result ≡ nat_lt number (2 ^ bits) }
{
    bits >= 64 || number < 1 << bits
}
