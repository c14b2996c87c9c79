//! The write ports of one memory so far.

ghost use Rattle.std.specs.Prelude.{
  ◌≡◌,
  ◌<◌,
  ◌+◌,
  ◌++◌,
  ◌∷◌,
  ◌||◌,
  [],
  List,
  Some,
  true,
  false,
  IfOk,
  OnOk,
  max,
  unwrap_or,
};
ghost use Rattle.cell_types.specs.declared.memory.MemoryKind.{MemoryKind};
ghost use Rattle.cell_types.specs.declared.memory.MemoryKind.TheVariants.{MemwrV2};
ghost use Rattle.rtl_ir.specs.declared.cell.Cell.{Cell};
ghost use Rattle.rtl_ir.specs.declared.module.Link.{Link};
ghost use Rattle.rtl_ir.specs.declared.module.Module.{Module};
ghost use Rattle.rtl_ir.specs.declared.store.Store.{Store};
ghost use Rattle.rtl_ir.specs.Faults.MemoryCells as cells;
ghost use Rattle.rtl_ir.specs.WritePorts as rtl;
ghost use Rattle.memory_check.specs.Clocks.{AreClocks, followed};
ghost use Rattle.memory_check.specs.Ports.{HasCells, HasLines, is_bad_line_behind, line_of, unlike, with_cell};
ghost use Rattle.memory_check.specs.Shapes.{HasShape};

use crate::clocks::{Clocking, Clocks};
use crate::starts::{are_enables, are_words};
use cell_types::{MemoryKind, Shape};
use rtl_bits::Memory;
use rtl_ir::limits::{MAX_ADDRESS, MAX_PORT};
use rtl_ir::{Cell, Event, Store, WriteLine};
use std::alloc::Global;
use std::collections::HashSet;

/// A memory and its write ports so far: the numbers of those that are cells, one more than the greatest of all numbers,
/// and when the first one acts. All act when the first one does.
#[derive(Drop)]
pub(crate) struct Ports<'a> {
    store: &'a Store,
    numbers: HashSet<u32>,
    next: u32,
    first: Option<Clocking<'a>>,
}

impl<'a> Ports<'a> {
    /// The memory without write ports.
    pub(crate) fn of(alloc: Global, store: &'a Store) -> Ports<'a>
        ensures value { (links : List Link) → HasCells links result store.now [] }
    {
        Ports {
            store,
            numbers: HashSet::new(alloc),
            next: 0,
            first: None,
        }
    }

    /// Whether a cell of the memory is a fault of it. If it is none and a write port, it is noted.
    pub(crate) fn is_bad_cell(
        &mut self,
        alloc: Global,
        clocks: &mut Clocks<'a>,
        cell: &'a Cell,
        kind: MemoryKind,
        shape: &Shape,
    ) -> Result<bool, Memory>
        ensures clocks { OnOk result ((m : Module) → AreClocks clocks.old m → AreClocks clocks.new m) }
        ensures bad { IfOk result (λ bad. (m : Module) (s : Store) (ports : List rtl.WritePort) →
            AreClocks clocks.old m → HasCells m.links self.old s ports → HasShape shape.now kind cell.now →
            bad ≡ (cells.is_unlike s cell.now || cells.is_bad_access true m.links ports s cell.now kind)) }
        ensures noted { IfOk result (λ bad. bad ≡ false → (m : Module) (s : Store) (ports : List rtl.WritePort) →
            AreClocks clocks.old m → HasCells m.links self.old s ports → HasShape shape.now kind cell.now →
            HasCells m.links self.new s (with_cell m.links ports kind cell.now)) }
    {
        if is_unlike(self.store, shape) {
            return Ok(true);
        }
        match kind {
            MemoryKind::Memrd | MemoryKind::MemrdV2 => Ok(shape.port.clocked),
            MemoryKind::MemwrV2 => self.is_bad_write(alloc, clocks, cell, shape),
            MemoryKind::Meminit => Ok(!are_words(self.store, cell, shape)),
            MemoryKind::MeminitV2 => {
                Ok(!are_words(self.store, cell, shape) || !are_enables(cell, shape))
            }
        }
    }

    /// Whether a write cell is a fault of the memory. If it is none, it is noted.
    fn is_bad_write(
        &mut self,
        alloc: Global,
        clocks: &mut Clocks<'a>,
        cell: &'a Cell,
        shape: &Shape,
    ) -> Result<bool, Memory>
        ensures clocks { OnOk result ((m : Module) → AreClocks clocks.old m → AreClocks clocks.new m) }
        ensures bad { IfOk result (λ bad. (m : Module) (s : Store) (ports : List rtl.WritePort) →
            AreClocks clocks.old m → HasCells m.links self.old s ports → HasShape shape.now MemwrV2 cell.now →
            bad ≡ cells.is_bad_write true m.links ports cell.now) }
        ensures noted { IfOk result (λ bad. bad ≡ false → (m : Module) (s : Store) (ports : List rtl.WritePort) →
            AreClocks clocks.old m → HasCells m.links self.old s ports → HasShape shape.now MemwrV2 cell.now →
            HasCells m.links self.new s (ports ++ rtl.cell_port m.links cell.now ∷ [])) }
    {
        let number = shape.port.number;
        if !shape.port.clocked || number > MAX_PORT || self.numbers.contains(&number) {
            return Ok(true);
        }
        let clocking = Clocking::of_cell(cell, shape);
        if self.clashes(alloc, clocks, clocking)? {
            return Ok(true);
        }
        self.numbers.insert(number)?;
        self.note(number, clocking);
        Ok(false)
    }

    /// Whether a line of a rule with this event is a fault of the memory. If it is none, it is noted.
    pub(crate) fn is_bad_line(
        &mut self,
        alloc: Global,
        clocks: &mut Clocks<'a>,
        event: &'a Event,
        line: &'a WriteLine,
    ) -> Result<bool, Memory>
        ensures clocks { OnOk result ((m : Module) → AreClocks clocks.old m → AreClocks clocks.new m) }
        ensures bad { IfOk result (λ bad.
            (m : Module) (s : Store) (ports : List rtl.WritePort) (lines : List rtl.EventLine) →
            AreClocks clocks.old m → HasLines m.links self.old s ports lines →
            bad ≡ is_bad_line_behind m.links s ports lines (line_of event.now line.now)) }
        ensures noted { IfOk result (λ bad. bad ≡ false →
            (m : Module) (s : Store) (ports : List rtl.WritePort) (lines : List rtl.EventLine) →
            AreClocks clocks.old m → HasLines m.links self.old s ports lines →
            HasLines m.links self.new s ports (lines ++ (line_of event.now line.now) ∷ [])) }
    {
        let number = self.next;
        if line.value.as_slice().len() != self.store.width as usize
            || line.address.as_slice().len() > MAX_ADDRESS
            || number > MAX_PORT
        {
            return Ok(true);
        }
        let clocking = Clocking::of_event(event);
        if self.clashes(alloc, clocks, clocking)? {
            return Ok(true);
        }
        self.note(number, clocking);
        Ok(false)
    }

    /// Whether a port that acts so may not stand beside those so far.
    fn clashes(
        &self,
        alloc: Global,
        clocks: &mut Clocks<'a>,
        clocking: Clocking<'a>,
    ) -> Result<bool, Memory>
        ensures clocks { OnOk result ((m : Module) → AreClocks clocks.old m → AreClocks clocks.new m) }
        ensures value { IfOk result (λ clash. (m : Module) → AreClocks clocks.old m →
            clash ≡ unlike m.links self.now.first (followed m.links clocking.entry)) }
    {
        match self.first {
            Some(first) => Ok(!clocks.are_same(alloc, clocking, first)?),
            None => Ok(false),
        }
    }

    /// Notes a port of this number that acts so.
    fn note(&mut self, number: u32, clocking: Clocking<'a>)
        requires small { number < 65536 }
        ensures store { self.new.store ≡ self.old.store }
        ensures numbers { self.new.numbers ≡ self.old.numbers }
        ensures next { self.new.next ≡ max (number + 1) self.old.next }
        ensures first { self.new.first ≡ Some (unwrap_or self.old.first clocking.entry) }
    {
        self.next = self.next.max(number + 1);
        if self.first.is_none() {
            self.first = Some(clocking);
        }
    }
}

/// Whether the words of a cell of this shape have another width than those of the memory, or its addresses have no bit
/// or too many.
fn is_unlike(store: &Store, shape: &Shape) -> bool
    ensures value { (kind : MemoryKind) (c : Cell) → HasShape shape.now kind c → result ≡ cells.is_unlike store.now c }
{
    if shape.width != store.width {
        return true;
    }
    let address = shape.port.address as usize;
    address == 0 || address > MAX_ADDRESS
}
