//! How one bit of a storage cell works.

ghost use Rattle.std.specs.Prelude.{◌≡◌, slice_index_or};
ghost use Rattle.cell_gate.specs.Store.{IsStorage, reset_at, storage_kind, store_of};

use cell_types::{CellKind, Levels, Resets, Shape, StorageKind};
use rtl_bits::Bit;

/// One bit of a storage cell: its kind, the levels of its controls, and the value that its reset
/// gives. The value of a kind without a reset is not read.
#[derive(Clone, Copy, Debug, PartialEq, Eq)]
pub(crate) struct Store {
    pub(crate) kind: StorageKind,
    pub(crate) levels: Levels,
    pub(crate) value: Bit,
}

/// The bit of a storage cell at a place.
pub(crate) fn store_of(shape: &Shape, at: usize) -> Store
    requires storage { IsStorage shape.now.kind }
    ensures value { result ≡ store_of shape.now at }
{
    let kind = storage_kind(shape.kind);
    Store {
        kind,
        levels: shape.levels,
        value: reset_at(kind, &shape.resets, at),
    }
}

/// What a storage cell or storage gate stores as: the kind of storage cell that has its meaning. A cell of any other
/// kind stores nothing, and is told as `$ff`.
pub fn storage_kind(kind: CellKind) -> StorageKind
    ensures value { result ≡ storage_kind kind }
{
    match kind {
        CellKind::Storage(storage) => storage,
        CellKind::StorageGate(gate) => gate.kind(),
        _ => StorageKind::Ff,
    }
}

/// The bit that the reset of a kind gives at a place: of ARST_VALUE for an asynchronous reset, of SRST_VALUE for a
/// synchronous one; x where the kind has no reset, and past the end of the value.
pub fn reset_at(kind: StorageKind, resets: &Resets, at: usize) -> Bit
    ensures value { result ≡ reset_at kind resets.now at }
{
    match kind {
        StorageKind::Adff | StorageKind::Adffe | StorageKind::Adlatch => {
            at_or_unknown(resets.arst.as_slice(), at)
        }
        StorageKind::Sdff | StorageKind::Sdffe | StorageKind::Sdffce => {
            at_or_unknown(resets.srst.as_slice(), at)
        }
        _ => Bit::X,
    }
}

/// The bit at a place, x past the end.
fn at_or_unknown(bits: &[Bit], at: usize) -> Bit
    ensures value { result ≡ slice_index_or bits.now at Bit.X }
{
    if at < bits.len() { bits[at] } else { Bit::X }
}
