//! Why a part or a join of signals is refused.

use rtl_bits::Memory;
use thiserror::Error;

/// Why there is no such signal.
#[derive(Clone, Copy, Debug, PartialEq, Eq, Error)]
pub enum SigFault {
    /// The part passes the end of the signal.
    #[error("the part passes the end of the signal")]
    Range,
    /// The signal would be wider than 4,194,304 bits.
    #[error("the signal is too wide")]
    Width,
    #[error("out of memory")]
    Memory,
}

impl From<Memory> for SigFault {
    ghost use Rattle.std.specs.Prelude.{◌≡◌};
    ghost use Rattle.rtl_sig.specs.declared.fault.SigFault.TheVariants.{Memory};

    ghost from_gives = { λ _ fault. fault ≡ Memory };

    fn from(_error: Memory) -> SigFault {
        SigFault::Memory
    }
}
