//! Why a line says no input bits.

ghost use Rattle.std.specs.Prelude.{◌≡◌};

use rtl_bits::Memory;
use thiserror::Error;

/// Why there are no input bits.
#[derive(Clone, Copy, Debug, PartialEq, Eq, Error)]
pub enum StepFault {
    /// The line has not one word for each input port, or a word has not one digit for each bit.
    #[error("the line is no stimulus line")]
    Bad,
    #[error("out of memory")]
    Memory,
}

impl From<Memory> for StepFault {
    ghost use Rattle.sim_text.specs.declared.step_fault.StepFault.TheVariants.{Memory};

    ghost from_gives = { λ _ fault. fault ≡ Memory };

    fn from(_error: Memory) -> StepFault {
        StepFault::Memory
    }
}
