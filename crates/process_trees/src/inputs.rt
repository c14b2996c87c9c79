//! The inputs of combinational cells.

ghost use Rattle.std.specs.Prelude.{◌≡◌, ◌==◌, None, Some, if◌then◌else◌, IfOk, List, count_by, find, flat_map, map};
ghost use Rattle.rtl_sig.specs.declared.sig.SigBit.{SigBit};
ghost use Rattle.rtl_ir.specs.declared.module.Link.{Link};
ghost use Rattle.rtl_ir.specs.EventTests.{input_signals, is_open, placed_pins};
ghost use Rattle.rtl_ir.specs.Follow.{all_joins};
ghost use Rattle.process_trees.specs.Tables.{AreLinks};

use crate::tables::EventTests;
use cell_types::{CellKind, PinName, WordKind, pins_of};
use rtl_bits::Memory;
use rtl_ir::{Cell, signal_at};
use rtl_sig::SigBit;
use std::alloc::Global;

/// The pins of a combinational kind; where it has S and no B, the place of B is kept.
fn placed_pins(kind: CellKind) -> &'static [PinName]
    ensures value { result.now ≡ placed_pins kind }
{
    match kind {
        CellKind::Word(WordKind::Bmux | WordKind::Demux) => {
            &[PinName::A, PinName::B, PinName::S, PinName::Y]
        }
        _ => pins_of(kind),
    }
}

/// The signals at the inputs of a cell of this kind, in the order A, B, S.
pub(crate) fn input_signals<'a>(
    alloc: Global,
    kind: CellKind,
    cell: &'a Cell,
) -> Result<Vec<&'a [SigBit]>, Memory>
    ensures value { IfOk result (λ signals. map (λ s. s.now) signals.items ≡ input_signals kind cell.now) }
{
    let mut signals = Vec::new(alloc);
    for name in placed_pins(kind) {
        if name.text() != PinName::Y.text() {
            signals.push(signal_at(cell.pins.as_slice(), name.text()))?;
        }
    }
    Ok(signals)
}

impl EventTests {
    /// The one place among these signals that follows to no constant, where it is one.
    pub(crate) fn one_open(
        &self,
        alloc: Global,
        signals: &[&[SigBit]],
    ) -> Result<Option<SigBit>, Memory>
        ensures value { (links : List Link) → AreLinks self.now links → IfOk result (λ found.
            let inputs = flat_map (λ (s : List SigBit). s) (map (λ s. s.now) signals.now) in
            found ≡ (if count_by (is_open (all_joins links)) inputs ==
            1 then find (is_open (all_joins links)) inputs else None)) }
    {
        let mut inputs = Vec::new(alloc);
        for signal in signals {
            inputs.extend_from_slice(signal)?;
        }
        Ok(self.only_open(inputs.as_slice()))
    }

    /// The one of these places that follows to no constant, where it is one.
    fn only_open(&self, inputs: &[SigBit]) -> Option<SigBit>
        ensures value { (links : List Link) → AreLinks self.now links →
            result ≡ (if count_by (is_open (all_joins links)) inputs.now ==
            1 then find (is_open (all_joins links)) inputs.now else None) }
    {
        let mut found = None;
        for place in inputs {
            if self.is_open(*place) {
                if found.is_some() {
                    return None;
                }
                found = Some(*place);
            }
        }
        found
    }

    /// Whether a place follows to no constant.
    fn is_open(&self, place: SigBit) -> bool
        ensures value { (links : List Link) → AreLinks self.now links → result ≡ is_open (all_joins links) place }
    {
        matches!(self.follow(place), SigBit::Wire(_))
    }
}
