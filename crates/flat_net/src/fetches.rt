//! The read ports of memories, in numbers.

ghost use Rattle.std.specs.Prelude.{◌≡◌, ◌<◌, ◌≤◌, Some, IfOk, OnOk, length, nat_abs, slice_get};
ghost use Rattle.std.specs.List.{AllByRecursion};
ghost use Rattle.rtl_ir.specs.declared.plan.ReadPort.{ReadPort as PlanRead};
ghost use Rattle.rtl_ir.specs.Flat.Place.{Path};
ghost use Rattle.flat_net.specs.Known.{Extends};
ghost use Rattle.flat_net.specs.Memories.{AreColumns, AreFetched, AreReadPorts, IsReadPort, column_places, read_rows};
ghost use Rattle.flat_net.specs.Reads.{AreNumbers};

use crate::logic::outputs;
use crate::memory::{Fetched, ReadPort};
use crate::places::{Places, number_at};
use crate::scope::Scope;
use crate::words::{address_behind, first_address};
use rtl_bits::{Memory, Seq};
use rtl_ir as ir;
use rtl_ir::Store;

impl Places {
    /// The read ports of a memory.
    pub(crate) fn fetched(
        &mut self,
        scope: &Scope,
        store: &Store,
        reads: &[ir::ReadPort],
    ) -> Result<Fetched, Memory>
        requires in_range { scope.now.path < length self.old.paths }
        ensures grows { OnOk result (Extends self.old self.new) }
        ensures value { (p : Path) → slice_get self.old.paths scope.now.path ≡ Some p →
            IfOk result (λ fetched.
            AreFetched self.new.places fetched (read_rows p scope.now.wires.now store.now reads.now)) }
    {
        let ports = self.read_ports(scope, reads)?;
        let columns = self.columns(scope, store, widest(reads))?;
        Ok(Fetched {
            first: first_address(store),
            columns,
            ports,
        })
    }

    /// The read ports with their outputs.
    fn read_ports(&mut self, scope: &Scope, reads: &[ir::ReadPort]) -> Result<Seq<ReadPort>, Memory>
        requires in_range { scope.now.path < length self.old.paths }
        ensures grows { OnOk result (Extends self.old self.new) }
        ensures value { (p : Path) → slice_get self.old.paths scope.now.path ≡ Some p →
            IfOk result (λ ports. AreReadPorts self.new.places p scope.now.wires.now ports reads.now) }
    {
        let mut ports = Vec::with_capacity(scope.alloc, reads.len())?;
        for read in reads {
            let port = self.read_port(scope, read)?;
            ports.push(port)?;
        }
        Ok(Seq::from_vec(ports))
    }

    /// A read port with its outputs.
    fn read_port(&mut self, scope: &Scope, read: &ir::ReadPort) -> Result<ReadPort, Memory>
        requires in_range { scope.now.path < length self.old.paths }
        ensures grows { OnOk result (Extends self.old self.new) }
        ensures value { (p : Path) → slice_get self.old.paths scope.now.path ≡ Some p →
            IfOk result (λ port. IsReadPort self.new.places p scope.now.wires.now port read.now) }
    {
        let address = self.points(scope, read.address.as_slice())?;
        let points = self.points(scope, read.data.as_slice())?;
        Ok(ReadPort {
            address,
            outputs: outputs(scope.alloc, points.as_slice())?,
        })
    }

    /// The numbers of so many bits of the words of a memory, place by place.
    fn columns(
        &mut self,
        scope: &Scope,
        store: &Store,
        width: usize,
    ) -> Result<Seq<Seq<u32>>, Memory>
        requires in_range { scope.now.path < length self.old.paths }
        ensures grows { OnOk result (Extends self.old self.new) }
        ensures value { (p : Path) → slice_get self.old.paths scope.now.path ≡ Some p →
            IfOk result (λ columns. AreColumns self.new.places p store.now columns width) }
    {
        let mut columns = Vec::with_capacity(scope.alloc, width)?;
        for at in 0..width {
            let place = number_at(at)?;
            let column = self.column(scope, store, place)?;
            columns.push(column)?;
        }
        Ok(Seq::from_vec(columns))
    }

    /// The numbers of the bit at a place of each word of a memory.
    fn column(&mut self, scope: &Scope, store: &Store, at: u32) -> Result<Seq<u32>, Memory>
        requires in_range { scope.now.path < length self.old.paths }
        ensures grows { OnOk result (Extends self.old self.new) }
        ensures value { (p : Path) → slice_get self.old.paths scope.now.path ≡ Some p →
            IfOk result (λ numbers. AreNumbers self.new.places numbers (column_places p store.now at)) }
    {
        let first = first_address(store);
        let size = word_count(store) as usize;
        let mut numbers = Vec::with_capacity(scope.alloc, size)?;
        for word in 0..size {
            let address = address_behind(first, word)?;
            let number = self.word_number(scope.path, store.name.as_slice(), address, at)?;
            numbers.push(number)?;
        }
        Ok(Seq::from_vec(numbers))
    }
}

/// How many words a memory has.
fn word_count(store: &Store) -> u32
    ensures value { result ≡ nat_abs store.now.size }
{
    store.size.unsigned_abs()
}

/// The width of the widest read port.
fn widest(reads: &[ir::ReadPort]) -> usize
    ensures wide { AllByRecursion (λ (r : PlanRead). length r.«data» ≤ result) reads.now }
{
    let mut width = 0;
    for read in reads {
        width = width.max(read.data.as_slice().len());
    }
    width
}
