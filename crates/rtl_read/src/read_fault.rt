//! Why a text is no design.

use rtl_bits::Memory;
use rtl_lex::Place;
use std::alloc::{AllocError, AllocFailed};
use thiserror::Error;

/// The first fault of a text, with its place. The variants stand in the order of their numbers; of
/// two faults at one place the one with the lower number is answered.
#[derive(Clone, Copy, Debug, PartialEq, Eq, Error)]
pub enum ReadFault {
    /// A byte at which no token begins, or a string with a fault.
    #[error("error 1 {0}")]
    Lex(Place),
    /// The first token that no text of the grammar goes on with; or the token behind an empty
    /// signal, where a signal may not be empty.
    #[error("error 2 {0}")]
    Syntax(Place),
    /// An integer that is out of range, or a width below 1.
    #[error("error 3 {0}")]
    Int(Place),
    /// The second use of a name.
    #[error("error 4 {0}")]
    Duplicate(Place),
    /// A name that no wire above it has.
    #[error("error 5 {0}")]
    UnknownName(Place),
    /// The `[` of an index that lies outside its signal.
    #[error("error 6 {0}")]
    Range(Place),
    /// The token that passes a limit.
    #[error("error 17 {0}")]
    Limit(Place),
    #[error("out of memory")]
    Memory,
}

impl From<Memory> for ReadFault {
    ghost use Rattle.std.specs.Prelude.{◌≡◌};
    ghost use Rattle.rtl_read.specs.declared.read_fault.ReadFault.TheVariants.{Memory};

    ghost from_gives = { λ _ fault. fault ≡ Memory };

    fn from(_error: Memory) -> ReadFault {
        ReadFault::Memory
    }
}

impl From<AllocError> for ReadFault {
    ghost use Rattle.std.specs.Prelude.{◌≡◌};
    ghost use Rattle.rtl_read.specs.declared.read_fault.ReadFault.TheVariants.{Memory};

    ghost from_gives = { λ _ fault. fault ≡ Memory };

    fn from(_error: AllocError) -> ReadFault {
        ReadFault::Memory
    }
}

impl<T: Drop> From<AllocFailed<T>> for ReadFault {
    ghost use Rattle.std.specs.Prelude.{◌≡◌};
    ghost use Rattle.rtl_read.specs.declared.read_fault.ReadFault.TheVariants.{Memory};

    ghost from_gives = { λ _ fault. fault ≡ Memory };

    fn from(_error: AllocFailed<T>) -> ReadFault {
        ReadFault::Memory
    }
}
