//! The kinds of cells.

ghost use Rattle.std.specs.Prelude.{◌≡◌, Some, IfOk};
ghost use Rattle.cell_types.specs.Kind.{kind_of};

use crate::gate::{GateKind, gate_named};
use crate::letters::storage_gate_named;
use crate::memory::{MemoryKind, memory_named};
use crate::storage::{StorageKind, storage_named};
use crate::storage_gate::StorageGate;
use crate::word::{WordKind, word_named};
use rtl_bits::{Memory, Text};
use std::alloc::Global;

/// A cell of the library.
#[derive(Clone, Copy, Debug, PartialEq, Eq)]
pub enum CellKind {
    /// A combinational cell on words.
    Word(WordKind),
    /// A combinational cell of one bit.
    Gate(GateKind),
    /// A storage cell on words.
    Storage(StorageKind),
    /// A storage cell of one bit.
    StorageGate(StorageGate),
    /// A cell of a memory.
    Memory(MemoryKind),
}

/// The cell of this name, None exactly where no accepted cell has it. It takes no memory.
pub fn kind_of(name: &[u8]) -> Option<CellKind>
    ensures value { result ≡ kind_of name.now }
{
    if let Some(kind) = gate_named(name) {
        return Some(CellKind::Gate(kind));
    }
    if let Some(kind) = storage_gate_named(name) {
        return Some(CellKind::StorageGate(kind));
    }
    if let Some(kind) = word_named(name) {
        return Some(CellKind::Word(kind));
    }
    if let Some(kind) = storage_named(name) {
        return Some(CellKind::Storage(kind));
    }
    Some(CellKind::Memory(memory_named(name)?))
}

impl CellKind {
    /// The name of the cell.
    pub fn name(self, alloc: Global) -> Result<Text, Memory>
        ensures value { IfOk result (λ name. kind_of name ≡ Some self) }
    {
        match self {
            CellKind::Word(kind) => Text::from_slice(alloc, kind.name()),
            CellKind::Gate(kind) => Text::from_slice(alloc, kind.name()),
            CellKind::Storage(kind) => Text::from_slice(alloc, kind.name()),
            CellKind::StorageGate(kind) => kind.name(alloc),
            CellKind::Memory(kind) => Text::from_slice(alloc, kind.name()),
        }
    }
}
