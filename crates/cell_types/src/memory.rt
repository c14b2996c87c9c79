//! Cells of a memory.

ghost use Rattle.std.specs.Prelude.{◌≡◌, Some};
ghost use Rattle.cell_types.specs.Memory.{memory_of};
ghost use Rattle.cell_types.specs.Kind.{kind_of};

use crate::kind::CellKind;
use crate::names::find_named;

/// A port of a memory or its start words: in the Yosys manual, "Word-level cells", the section
/// "Memories".
#[derive(Clone, Copy, Debug, PartialEq, Eq)]
pub enum MemoryKind {
    /// `$memrd`: a read port.
    Memrd,
    /// `$memrd_v2`: a read port with resets.
    MemrdV2,
    /// `$memwr_v2`: a write port.
    MemwrV2,
    /// `$meminit`: start words.
    Meminit,
    /// `$meminit_v2`: start words with an enable for each bit.
    MeminitV2,
}

#[rattlefmt::skip]
const MEMORIES: [(&[u8], MemoryKind); 5] = [
    (b"$memrd", MemoryKind::Memrd),
    (b"$meminit", MemoryKind::Meminit),
    (b"$memrd_v2", MemoryKind::MemrdV2),
    (b"$memwr_v2", MemoryKind::MemwrV2),
    (b"$meminit_v2", MemoryKind::MeminitV2),
];

/// The memory cell of this name.
pub(crate) fn memory_named(name: &[u8]) -> Option<MemoryKind>
    ensures value { result ≡ memory_of name.now }
{
    find_named(&MEMORIES, name)
}

impl MemoryKind {
    /// The name of the cell.
    pub fn name(self) -> &'static [u8]
        ensures value { kind_of result.now ≡ Some (CellKind.Memory self) }
    {
        match self {
            MemoryKind::Memrd => b"$memrd",
            MemoryKind::MemrdV2 => b"$memrd_v2",
            MemoryKind::MemwrV2 => b"$memwr_v2",
            MemoryKind::Meminit => b"$meminit",
            MemoryKind::MeminitV2 => b"$meminit_v2",
        }
    }
}
