//! The memories of a module with their write ports so far.

ghost use Rattle.std.specs.Prelude.{◌≡◌, ◌++◌, ◌∷◌, [], List, Some, true, false, IfOk};
ghost use Rattle.std.specs.Option.{option_map_or};
ghost use Rattle.cell_types.specs.declared.kind.CellKind.TheVariants as Cells;
ghost use Rattle.cell_types.specs.Kind.{kind_of};
ghost use Rattle.rtl_ir.specs.declared.cell.Cell.{Cell};
ghost use Rattle.rtl_ir.specs.declared.module.Module.{Module};
ghost use Rattle.rtl_ir.specs.Faults.MemoryCells as cells;
ghost use Rattle.rtl_ir.specs.Faults.Processes as lines;
ghost use Rattle.rtl_ir.specs.Parameters as parameters;
ghost use Rattle.rtl_ir.specs.WritePorts.{EventLine, write_lines};
ghost use Rattle.memory_check.specs.Memories.{KnowsCells, KnowsLines, rule_lines};
ghost use Rattle.memory_check.specs.Ports.{line_of};
ghost use Rattle.memory_check.specs.Shapes.{HasShape};

use crate::clocks::Clocks;
use crate::ports::Ports;
use cell_types::{MemoryKind, Shape};
use rtl_bits::Memory;
use rtl_ir::{Cell, Event, Module, Process, SyncRule, WriteLine, memory_name};
use std::alloc::Global;
use std::collections::HashMap;

/// The memories of a module by their names, with the write ports of each so far.
#[derive(Drop)]
pub struct Memories<'a> {
    clocks: Clocks<'a>,
    stores: HashMap<&'a [u8], Ports<'a>>,
}

impl<'a> Memories<'a> {
    /// The memories of the module without write ports. Of two of one name the first counts.
    pub fn of(alloc: Global, body: &'a Module) -> Result<Memories<'a>, Memory>
        ensures value { IfOk result (λ memories. KnowsCells memories body.now []) }
    {
        let memories = body.memories.as_slice();
        let mut stores = HashMap::new(alloc);
        for at in (0..memories.len()).rev() {
            let store = &memories[at];
            stores.insert(store.name.as_slice(), Ports::of(alloc, store))?;
        }
        Ok(Memories {
            clocks: Clocks::of(body),
            stores,
        })
    }

    /// Whether a cell of this kind and shape names no memory of the module, or is a fault of it, behind the cells so
    /// far. If it is none, it counts among them.
    pub fn is_bad_cell(
        &mut self,
        alloc: Global,
        cell: &'a Cell,
        kind: MemoryKind,
        shape: &Shape,
    ) -> Result<bool, Memory>
        ensures bad { IfOk result (λ bad. (m : Module) (earlier : List Cell) → KnowsCells self.old m earlier →
            HasShape shape.now kind cell.now →
            bad ≡ cells.is_bad_memory_cell true m earlier cell.now kind) }
        ensures noted { IfOk result (λ bad. bad ≡ false → (m : Module) (earlier : List Cell) →
            KnowsCells self.old m earlier → HasShape shape.now kind cell.now →
            kind_of cell.now.kind_name ≡ Some (Cells.Memory kind) →
            KnowsCells self.new m (earlier ++ cell.now ∷ [])) }
    {
        match memory_name(cell.params.as_slice()) {
            Some(name) => self.is_bad_in(alloc, name, cell, kind, shape),
            None => Ok(true),
        }
    }

    /// Whether a cell that names this memory names none of the module, or is a fault of it, behind the cells so far. If
    /// it is none, it counts among them.
    fn is_bad_in(
        &mut self,
        alloc: Global,
        name: &[u8],
        cell: &'a Cell,
        kind: MemoryKind,
        shape: &Shape,
    ) -> Result<bool, Memory>
        ensures bad { IfOk result (λ bad. (m : Module) (earlier : List Cell) → KnowsCells self.old m earlier →
            HasShape shape.now kind cell.now →
            bad ≡ option_map_or (cells.is_bad_in true m earlier cell.now kind)
            (cells.store_named m.memories name.now) true) }
        ensures noted { IfOk result (λ bad. bad ≡ false → (m : Module) (earlier : List Cell) →
            KnowsCells self.old m earlier → HasShape shape.now kind cell.now →
            kind_of cell.now.kind_name ≡ Some (Cells.Memory kind) →
            parameters.memory_name cell.now.params ≡ Some name.now → KnowsCells self.new m (earlier ++ cell.now ∷ [])) }
    {
        match self.stores.get_mut(name) {
            Some(ports) => ports.is_bad_cell(alloc, &mut self.clocks, cell, kind, shape),
            None => Ok(true),
        }
    }

    /// Whether a line of the process that writes names no memory of the module, or is a fault of it, behind the lines
    /// so far. If there is none, they count among them.
    pub fn has_bad_line(&mut self, alloc: Global, process: &'a Process) -> Result<bool, Memory>
        ensures bad { IfOk result (λ bad. (m : Module) (before : List EventLine) → KnowsLines self.old m before →
            bad ≡ lines.has_bad_line true m before (write_lines process.now)) }
        ensures noted { IfOk result (λ bad. bad ≡ false → (m : Module) (before : List EventLine) →
            KnowsLines self.old m before →
            KnowsLines self.new m (before ++ write_lines process.now)) }
    {
        for rule in process.syncs.as_slice() {
            if self.has_bad_in(alloc, rule)? {
                return Ok(true);
            }
        }
        Ok(false)
    }

    /// Whether a line of the rule names no memory of the module, or is a fault of it, behind the lines so far. If there
    /// is none, they count among them.
    fn has_bad_in(&mut self, alloc: Global, rule: &'a SyncRule) -> Result<bool, Memory>
        ensures bad { IfOk result (λ bad. (m : Module) (before : List EventLine) → KnowsLines self.old m before →
            bad ≡ lines.has_bad_line true m before (rule_lines rule.now)) }
        ensures noted { IfOk result (λ bad. bad ≡ false → (m : Module) (before : List EventLine) →
            KnowsLines self.old m before →
            KnowsLines self.new m (before ++ rule_lines rule.now)) }
    {
        for line in rule.writes.as_slice() {
            if self.is_bad_line(alloc, &rule.event, line)? {
                return Ok(true);
            }
        }
        Ok(false)
    }

    /// Whether a line of a rule with this event names no memory of the module, or is a fault of it, behind the lines so
    /// far. If it is none, it counts among them.
    fn is_bad_line(
        &mut self,
        alloc: Global,
        event: &'a Event,
        line: &'a WriteLine,
    ) -> Result<bool, Memory>
        ensures bad { IfOk result (λ bad. (m : Module) (before : List EventLine) → KnowsLines self.old m before →
            bad ≡ lines.is_bad_line true m before (line_of event.now line.now)) }
        ensures noted { IfOk result (λ bad. bad ≡ false → (m : Module) (before : List EventLine) →
            KnowsLines self.old m before →
            KnowsLines self.new m (before ++ (line_of event.now line.now) ∷ [])) }
    {
        match self.stores.get_mut(line.memory.as_slice()) {
            Some(ports) => ports.is_bad_line(alloc, &mut self.clocks, event, line),
            None => Ok(true),
        }
    }
}
