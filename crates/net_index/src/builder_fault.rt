//! Why nothing is added to a module.

use rtl_bits::Memory;
use thiserror::Error;

/// Why a pass gives no module.
#[derive(Clone, Copy, Debug, PartialEq, Eq, Error)]
pub enum PassFault {
    /// The module would pass the limit on cells, on bits of wires, or on the numbers of fresh names.
    #[error("the module would pass a limit")]
    Over,
    #[error("out of memory")]
    Memory,
}

impl From<Memory> for PassFault {
    ghost use Rattle.std.specs.Prelude.{◌≡◌};
    ghost use Rattle.net_index.specs.declared.builder_fault.PassFault.TheVariants.{Memory};

    ghost from_gives = { λ _ fault. fault ≡ Memory };

    fn from(_error: Memory) -> PassFault {
        PassFault::Memory
    }
}
