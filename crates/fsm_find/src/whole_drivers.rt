//! The cells of a part of a machine by the signals that they drive as a whole.

ghost use Rattle.std.specs.Prelude.{◌≡◌, List, IfOk, Some, OnOk, if◌then◌else◌};
ghost use Rattle.rtl_sig.specs.declared.sig.SigBit.{SigBit};
ghost use Rattle.fsm_parts.specs.SignalTable.{place_in};
ghost use Rattle.fsm_find.specs.WholeDrivers.{driving_pin, first_giving, gives, is_part};

use cell_types::{CellKind, PinName};
use fsm_parts::{SignalTable, at_pin, is_flop, is_fork};
use rtl_bits::Memory;
use rtl_ir::{Cell, cell_kind};
use std::alloc::Global;

/// What of a machine drives a signal as a whole.
#[derive(Clone, Copy)]
pub(crate) enum Part {
    /// A `$mux` or a `$pmux` of the tree.
    Tree,
    /// A `$dff` or an `$adff`.
    Flop,
}

impl Part {
    /// Whether a cell of this kind is such a part.
    pub fn takes(self, kind: Option<CellKind>) -> bool
        ensures value { result ≡ is_part self kind }
    {
        match self {
            Part::Tree => is_fork(kind),
            Part::Flop => is_flop(kind),
        }
    }

    /// The pin by which it drives.
    pub fn driving_pin(self) -> PinName
        ensures value { result ≡ driving_pin self }
    {
        match self {
            Part::Tree => PinName::Y,
            Part::Flop => PinName::Q,
        }
    }
}

/// The place of the first of these cells that is such a part and drives a signal as a whole, by the signal.
pub(crate) fn whole_drivers(
    alloc: Global,
    part: Part,
    cells: &[Cell],
) -> Result<SignalTable, Memory>
    ensures value { IfOk result (λ drivers. (signal : List SigBit) →
        place_in drivers signal ≡ first_giving part cells.now signal) }
{
    let mut drivers = SignalTable::none(alloc);
    for at in (0..cells.len()).rev() {
        note(&mut drivers, alloc, part, at, &cells[at])?;
    }
    Ok(drivers)
}

/// The cell at this place counts before those that are there, if it is such a part.
fn note(
    drivers: &mut SignalTable,
    alloc: Global,
    part: Part,
    at: usize,
    cell: &Cell,
) -> Result<(), Memory>
    ensures ok { OnOk result ((signal : List SigBit) →
        place_in drivers.new signal ≡ (if gives part cell.now signal then Some at else place_in drivers.old signal)) }
{
    if !part.takes(cell_kind(cell)) {
        return Ok(());
    }
    drivers.put(alloc, at_pin(cell, part.driving_pin()), at)?;
    Ok(())
}
