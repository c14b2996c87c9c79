//! The faults of a design.

use rtl_bits::{Memory, Text};
use std::alloc::{AllocError, AllocFailed};

/// What is at fault in a module.
#[derive(Drop)]
pub enum Item {
    /// A wire, memory, cell or process, by its name.
    Named(Text),
    /// A connection, by its number from 1.
    Connect(u64),
}

/// What is at fault, and the name of its module.
#[derive(Drop)]
pub struct Spot {
    pub id: Text,
    pub item: Item,
}

/// A bit of a wire, and the name of its module.
#[derive(Drop)]
pub struct WireSpot {
    pub id: Text,
    pub wire: Text,
    pub at: u32,
}

/// The first fault of a design, in the order of their numbers from 7 on. Each says what is at fault.
#[derive(Drop)]
pub enum CheckFault {
    /// A pin, connection, pattern or assign has the wrong width.
    Width(Spot),
    /// The type of a cell names no cell of the library and no module.
    UnknownCell(Spot),
    /// A cell that is known and not taken.
    UnsupportedCell(Spot),
    /// A parameter is missing, unknown or without meaning, or a pin is missing or unknown.
    BadParameterOrPort(Spot),
    /// A width passes its limit.
    TooWide(Spot),
    /// A bit has two drivers.
    TwoDrivers(WireSpot),
    /// A port of both directions, a port number below 1 or used twice, a driven input port, or a constant
    /// that is driven.
    BadPort(Spot),
    /// The rules of a process do not stand together, or its decisions read themselves.
    BadProcess(Spot),
    /// A memory, or a cell or line that reads or writes it, is not as it has to be.
    BadMemory(Spot),
    /// A module instantiates itself, through other modules or not.
    Recursion(Text),
    Memory,
}

impl From<Memory> for CheckFault {
    ghost use Rattle.std.specs.Prelude.{◌≡◌};
    ghost use Rattle.rtl_check.specs.declared.fault.CheckFault.TheVariants as check;

    ghost from_gives = { λ _ fault. fault ≡ check.Memory };

    fn from(_memory: Memory) -> CheckFault {
        CheckFault::Memory
    }
}

impl From<AllocError> for CheckFault {
    ghost use Rattle.std.specs.Prelude.{◌≡◌};
    ghost use Rattle.rtl_check.specs.declared.fault.CheckFault.TheVariants as check;

    ghost from_gives = { λ _ fault. fault ≡ check.Memory };

    fn from(_error: AllocError) -> CheckFault {
        CheckFault::Memory
    }
}

impl<T: Drop> From<AllocFailed<T>> for CheckFault {
    ghost use Rattle.std.specs.Prelude.{◌≡◌};
    ghost use Rattle.rtl_check.specs.declared.fault.CheckFault.TheVariants as check;

    ghost from_gives = { λ _ fault. fault ≡ check.Memory };

    fn from(_error: AllocFailed<T>) -> CheckFault {
        CheckFault::Memory
    }
}
