//! What comes in the place of a cell.

ghost use Rattle.std.specs.Prelude.{◌≡◌, IfOk};
ghost use Rattle.std.specs.Option.{option_map};
ghost use Rattle.expr_rules.specs.Change.{chooser, chooser_kind, fitted, inverter, inverter_kind};
ghost use Rattle.expr_rules.specs.declared.change.Change.TheVariants.{Gives};

use cell_types::{CellKind, GateKind, UnaryKind, WordKind};
use rtl_bits::Memory;
use rtl_sig::SigSpec;
use std::alloc::Global;

/// A cell that comes in another's place. It keeps that cell's place, name, attributes and Y.
#[derive(Drop)]
pub struct NewCell {
    /// `$not`, `$mux`, or the gate of it.
    pub kind: CellKind,
    /// The signal at A, as wide as Y.
    pub a: SigSpec,
    /// The signal at B of a multiplexer, as wide as Y, else of no bits.
    pub b: SigSpec,
    /// The one bit at S of a multiplexer, else of no bits.
    pub s: SigSpec,
}

/// What comes in the place of a cell.
#[derive(Drop)]
pub enum Change {
    /// The cell goes, and Y is connected to this signal.
    Gives(SigSpec),
    /// The cell becomes another one.
    Becomes(NewCell),
}

/// An inverter of the signal in the place of a cell of this kind: of a gate a gate.
pub(crate) fn inverter(alloc: Global, kind: CellKind, a: SigSpec) -> Change
    ensures value { result ≡ inverter kind a }
{
    Change::Becomes(NewCell {
        kind: inverter_kind(kind),
        a,
        b: SigSpec::make(alloc),
        s: SigSpec::make(alloc),
    })
}

/// A multiplexer of the signals in the place of a cell of this kind: of a gate a gate.
pub(crate) fn chooser(kind: CellKind, a: SigSpec, b: SigSpec, s: SigSpec) -> Change
    ensures value { result ≡ chooser kind a b s }
{
    Change::Becomes(NewCell {
        kind: chooser_kind(kind),
        a,
        b,
        s,
    })
}

/// The signal that a cell gives, where there is one.
pub(crate) fn gives(word: Option<SigSpec>) -> Option<Change>
    ensures value { result ≡ option_map Gives word }
{
    match word {
        Some(word) => Some(Change::Gives(word)),
        None => None,
    }
}

fn inverter_kind(kind: CellKind) -> CellKind
    ensures value { result ≡ inverter_kind kind }
{
    match kind {
        CellKind::Gate(_) => CellKind::Gate(GateKind::Not),
        _ => CellKind::Word(WordKind::Unary(UnaryKind::Not)),
    }
}

fn chooser_kind(kind: CellKind) -> CellKind
    ensures value { result ≡ chooser_kind kind }
{
    match kind {
        CellKind::Gate(_) => CellKind::Gate(GateKind::Mux),
        _ => CellKind::Word(WordKind::Mux),
    }
}

impl Change {
    /// The change with a result as wide as Y: cut to this width, or filled up with 0.
    pub(crate) fn fitted(self, width: u32) -> Result<Change, Memory>
        ensures value { IfOk result (λ change. change ≡ fitted width self) }
    {
        match self {
            Change::Gives(word) => Ok(Change::Gives(word.extend(width, false)?)),
            Change::Becomes(cell) => Ok(Change::Becomes(cell)),
        }
    }
}
