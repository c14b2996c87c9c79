//! The levels at which the control pins of a cell act.

ghost use Rattle.std.specs.Prelude.{◌≡◌};
ghost use Rattle.cell_types.specs.Levels.{gate_levels, level_in, levels_in, levels_of};

use crate::given::{Param, number_in};
use crate::kind::CellKind;
use crate::level::Level;
use crate::memory::MemoryKind;
use crate::param_name::ParamName;
use crate::storage_gate::StorageGate;

/// The levels at which the control pins act. A pin that the cell lacks has `Low`.
#[derive(Clone, Copy, Debug, PartialEq, Eq)]
pub struct Levels {
    pub clk: Level,
    pub en: Level,
    pub arst: Level,
    pub srst: Level,
    pub aload: Level,
    pub set: Level,
    pub clr: Level,
}

/// The levels of a cell that lacks all control pins.
const LOW: Levels = Levels {
    clk: Level::Low,
    en: Level::Low,
    arst: Level::Low,
    srst: Level::Low,
    aload: Level::Low,
    set: Level::Low,
    clr: Level::Low,
};

/// The levels of a cell. Those of a memory's read port are not read.
pub(crate) fn levels_of(kind: CellKind, params: &[Param]) -> Levels
    ensures value { result ≡ levels_of kind params.now }
{
    match kind {
        CellKind::Storage(_) | CellKind::Memory(MemoryKind::MemwrV2) => levels_in(params),
        CellKind::StorageGate(gate) => gate_levels(gate),
        _ => LOW,
    }
}

fn levels_in(params: &[Param]) -> Levels
    ensures value { result ≡ levels_in params.now }
{
    Levels {
        clk: level_in(params, ParamName::ClkPolarity),
        en: level_in(params, ParamName::EnPolarity),
        arst: level_in(params, ParamName::ArstPolarity),
        srst: level_in(params, ParamName::SrstPolarity),
        aload: level_in(params, ParamName::AloadPolarity),
        set: level_in(params, ParamName::SetPolarity),
        clr: level_in(params, ParamName::ClrPolarity),
    }
}

/// Any number but 0 means the high level.
fn level_in(params: &[Param], polarity: ParamName) -> Level
    ensures value { result ≡ level_in params.now polarity }
{
    if number_in(params, polarity) == 0 {
        Level::Low
    } else {
        Level::High
    }
}

#[rattlefmt::skip]
fn gate_levels(gate: StorageGate) -> Levels
    ensures value { result ≡ gate_levels gate }
{
    match gate {
        StorageGate::Ff => LOW,
        StorageGate::Dff { clk } => Levels { clk, ..LOW },
        StorageGate::Dffe { clk, en } => Levels { clk, en, ..LOW },
        StorageGate::Adff { clk, arst, .. } => Levels { clk, arst, ..LOW },
        StorageGate::Adffe { clk, arst, en, .. } => Levels { clk, arst, en, ..LOW },
        StorageGate::Sdff { clk, srst, .. } => Levels { clk, srst, ..LOW },
        StorageGate::Sdffe { clk, srst, en, .. } => Levels { clk, srst, en, ..LOW },
        StorageGate::Sdffce { clk, srst, en, .. } => Levels { clk, srst, en, ..LOW },
        StorageGate::Dffsr { clk, set, clr } => Levels { clk, set, clr, ..LOW },
        StorageGate::Dffsre { clk, set, clr, en } => Levels { clk, set, clr, en, ..LOW },
        StorageGate::Aldff { clk, aload } => Levels { clk, aload, ..LOW },
        StorageGate::Aldffe { clk, aload, en } => Levels { clk, aload, en, ..LOW },
        StorageGate::Dlatch { en } => Levels { en, ..LOW },
        StorageGate::Adlatch { en, arst, .. } => Levels { en, arst, ..LOW },
        StorageGate::Dlatchsr { en, set, clr } => Levels { en, set, clr, ..LOW },
        StorageGate::Sr { set, clr } => Levels { set, clr, ..LOW },
    }
}
