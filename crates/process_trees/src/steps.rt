//! Steps back through cells that give a bit or its inverse.

ghost use Rattle.std.specs.Prelude.{◌≡◌, None, IfOk, List, length, map, option_map};
ghost use Rattle.rtl_ir.specs.declared.module.Link.{Link};
ghost use Rattle.rtl_ir.specs.Drivers.{cell_drives, driver_in};
ghost use Rattle.rtl_ir.specs.EventTests as rtl;
ghost use Rattle.rtl_ir.specs.EventTests.{cell_in, inverts, probe, probed};
ghost use Rattle.cell_types.specs.Kind.{kind_of};
ghost use Rattle.rtl_ir.specs.Faults.Cells.{misfit};
ghost use Rattle.rtl_ir.specs.Follow.{all_joins, follow_joins};
ghost use Rattle.rtl_ir.specs.Types.{Ports};
ghost use Rattle.std.specs.Option.{option_and_then};
ghost use Rattle.rtl_sig.specs.declared.sig.SigBit.TheVariants as sig;
ghost use Rattle.process_trees.specs.Fitting.{DoCellsFit};
ghost use Rattle.process_trees.specs.Steps.{combinational, step_as, step_by};
ghost use Rattle.process_trees.specs.Tables.{AreLinks, AreTests};

use crate::inputs::input_signals;
use crate::tables::EventTests;
use crate::values::lowest_bit;
use cell_types::{CellKind, PinName, kind_of};
use net_index::Driver;
use rtl_bits::{Bit, Bits, Memory, Seq};
use rtl_ir::{Cell, Module, signal_at};
use rtl_sig::{SigBit, WireBit};
use std::alloc::Global;

/// A step back through a cell: the input that it depends on, and whether it gives its inverse.
#[derive(Clone, Copy)]
pub(crate) struct Step {
    pub(crate) input: SigBit,
    pub(crate) inverse: bool,
}

impl EventTests {
    /// The step back from a place through the cell that drives it.
    pub(crate) fn step_at(
        &self,
        alloc: Global,
        module: &Module,
        place: SigBit,
    ) -> Result<Option<Step>, Memory>
        ensures value { (ports : Ports) → AreTests self.now ports «module».now → DoCellsFit ports «module».now →
            IfOk result (λ step. option_map step_as step ≡ rtl.step_at ports «module».now place) }
    {
        match place {
            SigBit::Fixed(_) => Ok(None),
            SigBit::Wire(bit) => self.step_from(alloc, module, bit),
        }
    }

    /// The step back from a bit of a wire through the cell that drives it.
    fn step_from(
        &self,
        alloc: Global,
        module: &Module,
        bit: WireBit,
    ) -> Result<Option<Step>, Memory>
        ensures value { (ports : Ports) → AreTests self.now ports «module».now → DoCellsFit ports «module».now →
            IfOk result (λ step. option_map step_as step ≡ rtl.step_at ports «module».now (sig.Wire bit)) }
    {
        let Some(cell) = self.cell_behind(module, bit) else {
            return Ok(None);
        };
        match combinational(cell.kind_name.as_slice()) {
            Some(kind) => self.step_through(alloc, cell, kind),
            None => Ok(None),
        }
    }

    /// The cell that drives a bit.
    fn cell_behind<'a>(&self, module: &'a Module, bit: WireBit) -> Option<&'a Cell>
        ensures value { (ports : Ports) → AreTests self.now ports «module».now →
            option_map (λ c. c.now) result ≡
            option_and_then (cell_in «module».now.cells) (driver_in (cell_drives ports 0 «module».now.cells) bit) }
    {
        match self.cells.get(bit) {
            Some(Driver::Cell(place)) => module.cells.as_slice().get(place.cell as usize),
            _ => None,
        }
    }

    /// The step through a combinational cell of this kind with a result of one bit and one open input, where 0 and 1
    /// there give known, different values.
    fn step_through(
        &self,
        alloc: Global,
        cell: &Cell,
        kind: CellKind,
    ) -> Result<Option<Step>, Memory>
        ensures value { (links : List Link) → AreLinks self.now links → misfit kind cell.now ≡ None →
            IfOk result (λ step. option_map step_as step ≡ rtl.step_through (all_joins links) cell.now kind) }
    {
        if signal_at(cell.pins.as_slice(), PinName::Y.text()).len() != 1 {
            return Ok(None);
        }
        let signals = input_signals(alloc, kind, cell)?;
        let Some(input) = self.one_open(alloc, signals.as_slice())? else {
            return Ok(None);
        };
        let low = self.probe(alloc, kind, cell, Bit::S0)?;
        let high = self.probe(alloc, kind, cell, Bit::S1)?;
        Ok(step_by(input, inverts(low, high)))
    }

    /// The result of a cell where each input that does not follow to a constant is this bit.
    fn probe(&self, alloc: Global, kind: CellKind, cell: &Cell, bit: Bit) -> Result<Bit, Memory>
        ensures value { (links : List Link) → AreLinks self.now links → misfit kind cell.now ≡ None →
            IfOk result (λ given. given ≡ probe (all_joins links) kind cell.now bit) }
    {
        let signals = input_signals(alloc, kind, cell)?;
        let words = self.words(alloc, signals.as_slice(), bit)?;
        lowest_bit(alloc, kind, cell, words.as_slice())
    }

    /// The words at these inputs where each place that does not follow to a constant is this bit.
    fn words(&self, alloc: Global, signals: &[&[SigBit]], bit: Bit) -> Result<Vec<Bits>, Memory>
        ensures widths { IfOk result (λ words. map length words.items ≡ map length (map (λ s. s.now) signals.now)) }
        ensures value { (links : List Link) → AreLinks self.now links →
            IfOk result (λ words. words.items ≡
            map (map (λ s. probed bit (follow_joins (all_joins links) s))) (map (λ s. s.now) signals.now)) }
    {
        let mut words = Vec::with_capacity(alloc, signals.len())?;
        for signal in signals {
            words.push(self.word(alloc, signal, bit)?)?;
        }
        Ok(words)
    }

    /// The word at one input.
    fn word(&self, alloc: Global, signal: &[SigBit], bit: Bit) -> Result<Bits, Memory>
        ensures width { IfOk result (λ word. length word ≡ length signal.now) }
        ensures value { (links : List Link) → AreLinks self.now links →
            IfOk result (λ word. word ≡ map (λ s. probed bit (follow_joins (all_joins links) s)) signal.now) }
    {
        let mut word = Vec::with_capacity(alloc, signal.len())?;
        for place in signal {
            word.push(probed(bit, self.follow(*place)))?;
        }
        Ok(Seq::from_vec(word))
    }
}

/// A constant as it is, and this bit in the place of any other.
fn probed(bit: Bit, place: SigBit) -> Bit
    ensures value { result ≡ probed bit place }
{
    match place {
        SigBit::Fixed(value) => value,
        SigBit::Wire(_) => bit,
    }
}

/// Whether a function of a bit gives the inverse, where it gives 0 and 1 for 0 and 1 or the other way round.
fn inverts(low: Bit, high: Bit) -> Option<bool>
    ensures value { result ≡ inverts low high }
{
    match (low, high) {
        (Bit::S0, Bit::S1) => Some(false),
        (Bit::S1, Bit::S0) => Some(true),
        _ => None,
    }
}

/// The step to this input, where it is known what it gives.
fn step_by(input: SigBit, inverse: Option<bool>) -> Option<Step>
    ensures value { option_map step_as result ≡ step_by input inverse }
{
    match inverse {
        Some(inverse) => Some(Step { input, inverse }),
        None => None,
    }
}

/// The combinational kind of this name.
fn combinational(name: &[u8]) -> Option<CellKind>
    ensures value { result ≡ combinational (kind_of name.now) }
{
    match kind_of(name) {
        Some(CellKind::Word(kind)) => Some(CellKind::Word(kind)),
        Some(CellKind::Gate(kind)) => Some(CellKind::Gate(kind)),
        _ => None,
    }
}
