//! A module whose instances are replaced one after another.

ghost use Rattle.std.specs.Prelude.{◌≡◌, ◌<◌, ◌++◌, ◌∷◌, ◌&&◌, [], Err, IfOk, OnOk, false, true, length, nat_le};
ghost use Rattle.rtl_ir.specs.Build.{building_of};
ghost use Rattle.flat_pass.specs.Flat.{
  is_within,
  links_of,
  put_all,
  put_cell,
  put_links,
  put_store,
  put_wire,
  replaced,
  store_copies,
  copy_name,
  dotted,
};
ghost use Rattle.flat_pass.specs.Grown.{IsSound, TakesFirst, built};
ghost use Rattle.flat_pass.specs.Renames.{copying};

use crate::child::Child;
use crate::items::{cell_copy, inner_copy, put_links, store_copy, without_cells};
use crate::namer::Namer;
use crate::renames::Renames;
use net_index::{PassFault, count_bits};
use rtl_bits::{Copied, Memory, Seq, Text};
use rtl_ir::limits::{MAX_BITS, MAX_CELLS, MAX_FRESH};
use rtl_ir::{Cell, Module, Store, Wire, cell_kind};
use std::alloc::Global;
use std::collections::VecDeque;

/// A module whose instances are replaced one after another.
#[derive(Drop)]
pub(crate) struct Grown {
    alloc: Global,
    /// The module, with the cells that were visited alone: none of them is an instance.
    body: Module,
    /// The cells that were not visited yet, in order.
    waiting: VecDeque<Cell>,
    namer: Namer,
    /// How many bits the wires have.
    bits: u128,
}

impl Grown {
    /// The module, of which no instance is replaced yet.
    pub(crate) fn of(alloc: Global, module: &Module) -> Result<Grown, Memory>
        ensures value { IfOk result (λ grown. built grown ≡ building_of «module».now) }
        ensures sound { IfOk result IsSound }
    {
        let namer = Namer::of(alloc, module)?;
        let bits = count_bits(module.wires.as_slice());
        let cells = Cell::copy_all(module.cells.as_slice(), alloc)?;
        Ok(Grown {
            alloc,
            body: without_cells(alloc, module)?,
            waiting: VecDeque::from_vec(cells),
            namer,
            bits,
        })
    }

    /// The first instance in the order of cells, which is taken out, where there is one.
    pub(crate) fn take_first(&mut self) -> Result<Option<Cell>, Memory>
        requires sound { IsSound self.old }
        ensures value { IfOk result (TakesFirst (built self.old) (built self.new)) }
        ensures sound { OnOk result (IsSound self.new) }
    {
        while let Some(cell) = self.waiting.pop_front() {
            if cell_kind(&cell).is_none() {
                self.namer.release(cell.name.as_slice())?;
                return Ok(Some(cell));
            }
            self.body.cells.push(cell)?;
        }
        Ok(None)
    }

    /// An instance of a child, whose cell is taken out, is replaced by copies of the child's items.
    pub(crate) fn replace(&mut self, child: &Child, instance: &Cell) -> Result<(), PassFault>
        requires sound { IsSound self.old }
        ensures exact { OnOk result (built self.new ≡ replaced child.now.body.now instance.now (built self.old)) }
        ensures sound { OnOk result (IsSound self.new) }
        ensures over { result ≡ Err PassFault.Over →
            1000000000 < (replaced child.now.body.now instance.now (built self.old)).next }
    {
        let first = self.wire_count()?;
        let name = instance.name.as_slice();
        self.put_wires(name, child.body.wires.as_slice())?;
        let copies = self.put_stores(name, child.body.memories.as_slice())?;
        let stores = child.body.memories.as_slice();
        let renames = Renames::of(self.alloc, name, first, stores, copies)?;
        self.put_cells(&renames, child.body.cells.as_slice())?;
        self.put_links(first, child, instance)?;
        Ok(())
    }

    /// How many wires there are. More than 2^32 are taken for want of memory.
    fn wire_count(&self) -> Result<u32, Memory>
        ensures value { IfOk result (λ count. count ≡ length (built self.now).body.wires) }
    {
        u32::try_from(self.body.wires.as_slice().len())
            .ok()
            .ok_or(Memory)
    }

    /// Copies of wires go last.
    fn put_wires(&mut self, instance: &[u8], wires: &[Wire]) -> Result<(), PassFault>
        requires sound { IsSound self.old }
        ensures exact { OnOk result (built self.new ≡ put_all (put_wire instance.now) wires.now (built self.old)) }
        ensures sound { OnOk result (IsSound self.new) }
        ensures over { result ≡ Err PassFault.Over →
            1000000000 < (put_all (put_wire instance.now) wires.now (built self.old)).next }
    {
        for wire in wires {
            self.put_wire(instance, wire)?;
        }
        Ok(())
    }

    /// The copy of a wire goes last. More than 2^128 bits are taken for want of memory.
    fn put_wire(&mut self, instance: &[u8], wire: &Wire) -> Result<(), PassFault>
        requires sound { IsSound self.old }
        ensures exact { OnOk result (built self.new ≡ put_wire instance.now wire.now (built self.old)) }
        ensures sound { OnOk result (IsSound self.new) }
        ensures over { result ≡ Err PassFault.Over →
            1000000000 < (put_wire instance.now wire.now (built self.old)).next }
    {
        let bits = self.bits.checked_add(u128::from(wire.width)).ok_or(Memory)?;
        let name = self.namer.name(instance, wire.name.as_slice())?;
        let copy = inner_copy(name, wire)?;
        self.body.wires.push(copy)?;
        self.bits = bits;
        Ok(())
    }

    /// Copies of memories go last. The answer is their names.
    fn put_stores(&mut self, instance: &[u8], stores: &[Store]) -> Result<Seq<Text>, PassFault>
        requires sound { IsSound self.old }
        ensures names { IfOk result (λ names. names ≡ store_copies instance.now stores.now (built self.old)) }
        ensures exact { OnOk result (built self.new ≡ put_all (put_store instance.now) stores.now (built self.old)) }
        ensures sound { OnOk result (IsSound self.new) }
        ensures over { result ≡ Err PassFault.Over →
            1000000000 < (put_all (put_store instance.now) stores.now (built self.old)).next }
    {
        let mut names = Seq::make(self.alloc);
        for store in stores {
            names.push(self.put_store(instance, store)?)?;
        }
        Ok(names)
    }

    /// The copy of a memory goes last. The answer is its name.
    fn put_store(&mut self, instance: &[u8], store: &Store) -> Result<Text, PassFault>
        requires sound { IsSound self.old }
        ensures name { IfOk result (λ name. name ≡ copy_name (built self.old) (dotted instance.now store.now.name)) }
        ensures exact { OnOk result (built self.new ≡ put_store instance.now store.now (built self.old)) }
        ensures sound { OnOk result (IsSound self.new) }
        ensures over { result ≡ Err PassFault.Over →
            1000000000 < (put_store instance.now store.now (built self.old)).next }
    {
        let name = self.namer.name(instance, store.name.as_slice())?;
        let copy = store_copy(name.copy()?, store)?;
        self.body.memories.push(copy)?;
        Ok(name)
    }

    /// Copies of cells go last.
    fn put_cells(&mut self, renames: &Renames, cells: &[Cell]) -> Result<(), PassFault>
        requires sound { IsSound self.old }
        ensures exact { OnOk result (built self.new ≡
            put_all (put_cell (copying renames.now)) cells.now (built self.old)) }
        ensures sound { OnOk result (IsSound self.new) }
        ensures over { result ≡ Err PassFault.Over →
            1000000000 < (put_all (put_cell (copying renames.now)) cells.now (built self.old)).next }
    {
        for cell in cells {
            self.put_cell(renames, cell)?;
        }
        Ok(())
    }

    /// The copy of a cell goes last.
    fn put_cell(&mut self, renames: &Renames, cell: &Cell) -> Result<(), PassFault>
        requires sound { IsSound self.old }
        ensures exact { OnOk result (built self.new ≡ put_cell (copying renames.now) cell.now (built self.old)) }
        ensures sound { OnOk result (IsSound self.new) }
        ensures over { result ≡ Err PassFault.Over →
            1000000000 < (put_cell (copying renames.now) cell.now (built self.old)).next }
    {
        let name = self.namer.name(renames.instance, cell.name.as_slice())?;
        let copy = cell_copy(self.alloc, name, renames, cell)?;
        wait(&mut self.waiting, copy)?;
        Ok(())
    }

    /// The connections that come with an instance go last.
    fn put_links(&mut self, first: u32, child: &Child, instance: &Cell) -> Result<(), Memory>
        requires sound { IsSound self.old }
        ensures exact { OnOk result (built self.new ≡
            put_links (links_of first child.now.body.now instance.now.pins) (built self.old)) }
        ensures sound { OnOk result (IsSound self.new) }
    {
        put_links(
            self.alloc,
            first,
            child,
            instance.pins.as_slice(),
            &mut self.body.links,
        )
    }

    /// Nothing where the module is within the limits, else `Over`.
    pub(crate) fn check_limits(&self) -> Result<(), PassFault>
        requires sound { IsSound self.now }
        ensures over { result ≡ Err PassFault.Over → is_within (built self.now) ≡ false }
        ensures ok { OnOk result (is_within (built self.now) ≡ true) }
    {
        if self.is_within() {
            return Ok(());
        }
        Err(PassFault::Over)
    }

    /// Whether the module is within the limits.
    fn is_within(&self) -> bool
        requires sound { IsSound self.now }
        ensures value { result ≡ is_within (built self.now) }
    {
        are_within(self.cell_count(), self.bits, self.namer.next)
    }

    /// How many cells there are.
    fn cell_count(&self) -> u128
        ensures value { result ≡ length (built self.now).body.cells }
    {
        self.body.cells.as_slice().len() as u128 + self.waiting.len() as u128
    }

    /// The module.
    pub(crate) fn finish(mut self) -> Result<Module, Memory>
        ensures value { IfOk result (λ body. body ≡ (built self).body) }
    {
        while let Some(cell) = self.waiting.pop_front() {
            self.body.cells.push(cell)?;
        }
        let Grown { body, .. } = self;
        Ok(body)
    }
}

/// Whether so many cells, so many bits of wires and this next fresh name are within the limits.
fn are_within(cells: u128, bits: u128, next: u32) -> bool
    ensures value { result ≡ (nat_le cells 1048576 && (nat_le bits 4194304 && nat_le next 1000000000)) }
{
    cells <= MAX_CELLS as u128 && (bits <= MAX_BITS as u128 && next <= MAX_FRESH + 1)
}

/// A cell waits behind the others.
fn wait(waiting: &mut VecDeque<Cell>, cell: Cell) -> Result<(), Memory>
    ensures ok { OnOk result (waiting.new.items ≡ waiting.old.items ++ cell ∷ []) }
{
    waiting.push_back(cell)?;
    Ok(())
}
