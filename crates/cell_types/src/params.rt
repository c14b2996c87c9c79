//! Which parameters each cell has.

ghost use Rattle.std.specs.Prelude.{◌≡◌};
ghost use Rattle.cell_types.specs.Params.{params_of, word_params, storage_params, memory_params};

use crate::kind::CellKind;
use crate::memory::MemoryKind;
use crate::param_name::ParamName;
use crate::storage::StorageKind;
use crate::word::WordKind;
use ParamName::{
    ASigned, AWidth, Abits, AloadPolarity, ArstPolarity, ArstValue, BSigned, BWidth, CeOverSrst,
    ClkEnable, ClkPolarity, ClrPolarity, CollisionXMask, EnPolarity, InitValue, Memid, Offset,
    Portid, Priority, PriorityMask, SWidth, SetPolarity, SrstPolarity, SrstValue, TransparencyMask,
    Transparent, Width, Words, YWidth,
};

/// The params of a cell, in the order in which new cells write them.
pub fn params_of(kind: CellKind) -> &'static [ParamName]
    ensures value { result.now ≡ params_of kind }
{
    match kind {
        CellKind::Word(kind) => word_params(kind),
        CellKind::Gate(_) => &[],
        CellKind::Storage(kind) => storage_params(kind),
        CellKind::StorageGate(_) => &[],
        CellKind::Memory(kind) => memory_params(kind),
    }
}

#[rattlefmt::skip]
fn word_params(kind: WordKind) -> &'static [ParamName]
    ensures value { result.now ≡ word_params kind }
{
    match kind {
        WordKind::Unary(_) | WordKind::Fold(_) => &[ASigned, AWidth, YWidth],
        WordKind::Mux | WordKind::Buf | WordKind::Bwmux => &[Width],
        WordKind::Pmux | WordKind::Bmux | WordKind::Demux => &[Width, SWidth],
        WordKind::Slice => &[Offset, AWidth, YWidth],
        WordKind::Concat => &[AWidth, BWidth],
        _ => &[ASigned, AWidth, BSigned, BWidth, YWidth],
    }
}

#[rattlefmt::skip]
fn storage_params(kind: StorageKind) -> &'static [ParamName]
    ensures value { result.now ≡ storage_params kind }
{
    match kind {
        StorageKind::Ff => &[Width],
        StorageKind::Dff => &[Width, ClkPolarity],
        StorageKind::Dffe => &[Width, ClkPolarity, EnPolarity],
        StorageKind::Sdff => &[Width, ClkPolarity, SrstPolarity, SrstValue],
        StorageKind::Sdffe => &[Width, ClkPolarity, EnPolarity, SrstPolarity, SrstValue],
        StorageKind::Sdffce => &[Width, ClkPolarity, EnPolarity, SrstPolarity, SrstValue],
        StorageKind::Adff => &[Width, ClkPolarity, ArstPolarity, ArstValue],
        StorageKind::Adffe => &[Width, ClkPolarity, EnPolarity, ArstPolarity, ArstValue],
        StorageKind::Aldff => &[Width, ClkPolarity, AloadPolarity],
        StorageKind::Aldffe => &[Width, ClkPolarity, EnPolarity, AloadPolarity],
        StorageKind::Dffsr => &[Width, ClkPolarity, SetPolarity, ClrPolarity],
        StorageKind::Dffsre => &[Width, ClkPolarity, EnPolarity, SetPolarity, ClrPolarity],
        StorageKind::Dlatch => &[Width, EnPolarity],
        StorageKind::Adlatch => &[Width, EnPolarity, ArstPolarity, ArstValue],
        StorageKind::Dlatchsr => &[Width, EnPolarity, SetPolarity, ClrPolarity],
        StorageKind::Sr => &[Width, SetPolarity, ClrPolarity],
    }
}

#[rattlefmt::skip]
fn memory_params(kind: MemoryKind) -> &'static [ParamName]
    ensures value { result.now ≡ memory_params kind }
{
    match kind {
        MemoryKind::Memrd => &[Memid, Abits, Width, ClkEnable, ClkPolarity, Transparent],
        MemoryKind::MemrdV2 => &[
            Memid, Abits, Width, ClkEnable, ClkPolarity, TransparencyMask, CollisionXMask, ArstValue, SrstValue,
            InitValue, CeOverSrst,
        ],
        MemoryKind::MemwrV2 => &[Memid, Abits, Width, ClkEnable, ClkPolarity, Portid, PriorityMask],
        MemoryKind::Meminit => &[Memid, Abits, Width, Words, Priority],
        MemoryKind::MeminitV2 => &[Memid, Abits, Width, Words, Priority],
    }
}
