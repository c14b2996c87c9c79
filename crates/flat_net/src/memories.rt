//! The parts of memories.

ghost use Rattle.std.specs.Prelude.{◌≡◌, ◌<◌, Some, OnOk, length, slice_get};
ghost use Rattle.net_model.specs.Mem.Gather.{gathered};
ghost use Rattle.rtl_ir.specs.declared.store.Store as rtl;
ghost use Rattle.rtl_ir.specs.Flat.Access.{accesses_of};
ghost use Rattle.rtl_ir.specs.Flat.Memory.{init_cells, memories_rows, memory_rows, word_rows};
ghost use Rattle.rtl_ir.specs.Flat.Place.{Path};
ghost use Rattle.flat_net.specs.Adds.{Adds};
ghost use Rattle.flat_net.specs.Known.{Extends};
ghost use Rattle.flat_net.specs.Memories.{read_rows};

use crate::builder::Builder;
use crate::line_ports::{first_event, line_ports, next_number};
use crate::net::Part;
use crate::scope::Scope;
use mem_gather::gather;
use rtl_bits::Memory;
use rtl_ir::{MemPlan, Module, ReadPort, Store};

impl Builder {
    /// The memories of a module in this path.
    pub(crate) fn add_memories(&mut self, scope: &Scope, body: &Module) -> Result<(), Memory>
        requires in_range { scope.now.path < length self.old.places.paths }
        ensures grows { OnOk result (Extends self.old.places self.new.places) }
        ensures rows { (p : Path) → slice_get self.old.places.paths scope.now.path ≡ Some p →
            OnOk result (Adds self.old self.new (memories_rows p scope.now.wires.now body.now.cells body.now.processes
            body.now.memories)) }
    {
        for at in 0..body.memories.as_slice().len() {
            self.add_memory(scope, body, at)?;
        }
        Ok(())
    }

    /// The memory at a place: its words, and its read ports.
    fn add_memory(&mut self, scope: &Scope, body: &Module, at: usize) -> Result<(), Memory>
        requires in_range { scope.now.path < length self.old.places.paths }
        requires memory { at < length body.now.memories }
        ensures grows { OnOk result (Extends self.old.places self.new.places) }
        ensures rows { (p : Path) → slice_get self.old.places.paths scope.now.path ≡ Some p → (s : rtl.Store) →
            slice_get body.now.memories at ≡ Some s →
            OnOk result (Adds self.old self.new (memory_rows p scope.now.wires.now body.now.cells body.now.processes
            s)) }
    {
        let store = &body.memories.as_slice()[at];
        let plan = gather(scope.alloc, body, at as u64)?;
        self.add_words(scope, body, store, &plan)?;
        self.add_reads(scope, store, plan.reads.as_slice())
    }

    /// The words of a memory with this plan of its cells.
    fn add_words(
        &mut self,
        scope: &Scope,
        body: &Module,
        store: &Store,
        plan: &MemPlan,
    ) -> Result<(), Memory>
        requires in_range { scope.now.path < length self.old.places.paths }
        ensures grows { OnOk result (Extends self.old.places self.new.places) }
        ensures rows { (p : Path) → slice_get self.old.places.paths scope.now.path ≡ Some p →
            plan.now ≡ gathered body.now plan.now.store store.now →
            OnOk result (Adds self.old self.new (word_rows p scope.now.wires.now store.now (accesses_of store.now.name
            body.now.cells body.now.processes) (init_cells store.now.name body.now.cells))) }
    {
        let name = store.name.as_slice();
        let processes = body.processes.as_slice();
        let number = next_number(plan.writes.as_slice())?;
        let lines = line_ports(scope.alloc, name, number, processes)?;
        let event = first_event(name, processes);
        let words = self
            .places
            .remembered(scope, store, plan, lines.as_slice(), event)?;
        self.parts
            .push(Part::Remembered(Box::new(scope.alloc, words)?))?;
        Ok(())
    }

    /// The read ports of a memory.
    fn add_reads(&mut self, scope: &Scope, store: &Store, reads: &[ReadPort]) -> Result<(), Memory>
        requires in_range { scope.now.path < length self.old.places.paths }
        ensures grows { OnOk result (Extends self.old.places self.new.places) }
        ensures rows { (p : Path) → slice_get self.old.places.paths scope.now.path ≡ Some p →
            OnOk result (Adds self.old self.new (read_rows p scope.now.wires.now store.now reads.now)) }
    {
        let fetched = self.places.fetched(scope, store, reads)?;
        self.parts
            .push(Part::Fetched(Box::new(scope.alloc, fetched)?))?;
        Ok(())
    }
}
