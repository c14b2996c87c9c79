//! Which pins a cell drives.

ghost use Rattle.std.specs.Prelude.{◌≡◌};
ghost use Rattle.rtl_ir.specs.Outputs.{is_output, output_pin};

use crate::wire::Role;
use cell_types::{CellKind, MemoryKind, PinName};

/// The pin of a cell of the library that it drives.
pub fn output_pin(kind: CellKind) -> Option<PinName>
    ensures value { result ≡ output_pin kind }
{
    match kind {
        CellKind::Word(_) | CellKind::Gate(_) => Some(PinName::Y),
        CellKind::Storage(_) | CellKind::StorageGate(_) => Some(PinName::Q),
        CellKind::Memory(MemoryKind::Memrd | MemoryKind::MemrdV2) => Some(PinName::Data),
        CellKind::Memory(_) => None,
    }
}

/// Whether an instance drives what is connected to its port of this role. A port of both directions drives nothing.
pub fn is_output(role: Role) -> bool
    ensures value { result ≡ is_output role }
{
    matches!(role, Role::Output)
}
