//! The parts of a module: of its cells, and of what else it has.

ghost use Rattle.std.specs.Prelude.{◌≡◌, ◌<◌, List, ◌∷◌, Some, OnOk, length, map, slice_get};
ghost use Rattle.cell_types.specs.declared.kind.CellKind.{CellKind};
ghost use Rattle.rtl_ir.specs.declared.module.Design.{Design};
ghost use Rattle.rtl_ir.specs.Flat.Cell.{cell_kind, cell_rows, cells_rows, instance_rows, kind_rows, port_joins};
ghost use Rattle.rtl_ir.specs.Flat.Place.{Frame, Path, frame};
ghost use Rattle.rtl_ir.specs.Flat.Point as rtl;
ghost use Rattle.rtl_ir.specs.Flat.Point.{points, wire_points};
ghost use Rattle.rtl_bits.specs.declared.bit.Bit.{Bit};
ghost use Rattle.rtl_sig.specs.declared.sig.SigBit.{SigBit};
ghost use Rattle.rtl_ir.specs.Flat.Tree.{design_ports};
ghost use Rattle.rtl_ir.specs.Parameters.{signal_at};
ghost use Rattle.rtl_ir.specs.Ports.{line_of};
ghost use Rattle.flat_net.specs.Adds.{Adds};
ghost use Rattle.flat_net.specs.Starts.{IsStart};
ghost use Rattle.flat_net.specs.Known.{Extends};
ghost use Rattle.flat_net.specs.Reads.{ArePoints};
ghost use Rattle.flat_net.specs.Tables.{IsTable, all_now};
ghost use Rattle.rtl_ir.specs.Flat.Rows.{rows_of};

use crate::builder::Builder;
use crate::modules::Table;
use crate::net::Point;
use crate::scope::Scope;
use crate::starts::Starts;
use cell_types::{CellKind, kind_of};
use rtl_bits::Memory;
use rtl_ir::{Cell, Module, Pin, Role, Wire, signal_at};
use std::alloc::Global;

impl Builder {
    /// The cells, the connections, the processes and the memories of a module in this path.
    pub(crate) fn add_module(
        &mut self,
        alloc: Global,
        table: &Table,
        path: u32,
        body: &Module,
    ) -> Result<(), Memory>
        requires in_range { path < length self.old.places.paths }
        ensures grows { OnOk result (Extends self.old.places self.new.places) }
        ensures rows { (p : Path) → slice_get self.old.places.paths path ≡ Some p → (d : Design) →
            IsTable table.now d.modules →
            OnOk result (Adds self.old self.new (rows_of (design_ports d) p body.now)) }
    {
        let wires = body.wires.as_slice();
        let starts = Starts::of(alloc, wires, body.processes.as_slice())?;
        let scope = Scope {
            alloc,
            path,
            wires,
            starts: &starts,
        };
        self.add_cells(&scope, table, body.cells.as_slice())?;
        self.add_links(&scope, body.links.as_slice())?;
        self.add_processes(&scope, body)?;
        self.add_memories(&scope, body)
    }

    /// The cells of a module.
    fn add_cells(&mut self, scope: &Scope, table: &Table, cells: &[Cell]) -> Result<(), Memory>
        requires in_range { scope.now.path < length self.old.places.paths }
        ensures grows { OnOk result (Extends self.old.places self.new.places) }
        ensures rows { (p : Path) → slice_get self.old.places.paths scope.now.path ≡ Some p → (d : Design) →
            IsTable table.now d.modules →
            (start : SigBit → Bit) → IsStart scope.now.starts.now start →
            OnOk result (Adds self.old self.new (cells_rows start (design_ports d) p scope.now.wires.now cells.now)) }
    {
        for cell in cells {
            self.add_cell(scope, table, cell)?;
        }
        Ok(())
    }

    /// A cell: of the library, or an instance.
    fn add_cell(&mut self, scope: &Scope, table: &Table, cell: &Cell) -> Result<(), Memory>
        requires in_range { scope.now.path < length self.old.places.paths }
        ensures grows { OnOk result (Extends self.old.places self.new.places) }
        ensures rows { (p : Path) → slice_get self.old.places.paths scope.now.path ≡ Some p → (d : Design) →
            IsTable table.now d.modules →
            (start : SigBit → Bit) → IsStart scope.now.starts.now start →
            OnOk result (Adds self.old self.new (cell_rows start (design_ports d) p scope.now.wires.now cell.now
            (cell_kind cell.now))) }
    {
        match kind_of(cell.kind_name.as_slice()) {
            Some(kind) => self.add_library_cell(scope, cell, kind),
            None => self.add_instance(scope, table, cell),
        }
    }

    /// A cell of the library. The cells of memories drive nothing by themselves.
    fn add_library_cell(&mut self, scope: &Scope, cell: &Cell, kind: CellKind) -> Result<(), Memory>
        requires in_range { scope.now.path < length self.old.places.paths }
        ensures grows { OnOk result (Extends self.old.places self.new.places) }
        ensures rows { (p : Path) → slice_get self.old.places.paths scope.now.path ≡ Some p → (start : SigBit → Bit) →
            IsStart scope.now.starts.now start →
            OnOk result (Adds self.old self.new (kind_rows start p scope.now.wires.now cell.now kind)) }
    {
        let pins = cell.pins.as_slice();
        match kind {
            CellKind::Word(_) | CellKind::Gate(_) => self.add_logic(scope, cell, kind),
            CellKind::Storage(_) => {
                let reads = self.places.word_reads(scope, pins)?;
                self.add_store(scope, cell, kind, &reads)
            }
            CellKind::StorageGate(_) => {
                let reads = self.places.gate_reads(scope, pins)?;
                self.add_store(scope, cell, kind, &reads)
            }
            CellKind::Memory(_) => Ok(()),
        }
    }

    /// The ports of an instance, where the design has its module.
    fn add_instance(&mut self, scope: &Scope, table: &Table, cell: &Cell) -> Result<(), Memory>
        requires in_range { scope.now.path < length self.old.places.paths }
        ensures grows { OnOk result (Extends self.old.places self.new.places) }
        ensures rows { (p : Path) → slice_get self.old.places.paths scope.now.path ≡ Some p → (d : Design) →
            IsTable table.now d.modules →
            OnOk result (Adds self.old self.new (instance_rows p scope.now.wires.now cell.now.pins
            (frame cell.now.name cell.now.kind_name) (design_ports d cell.now.kind_name))) }
    {
        let id = cell.kind_name.as_slice();
        let Some(entry) = table.find(id) else {
            return Ok(());
        };
        let inner = self.places.enter(scope.path, cell.name.as_slice(), id)?;
        let ports = entry.ports.as_slice();
        self.add_ports(scope, cell.pins.as_slice(), inner, ports)
    }

    /// The ports of an instance, whose module is in the inner path.
    fn add_ports(
        &mut self,
        scope: &Scope,
        pins: &[Pin],
        inner: u32,
        ports: &[&Wire],
    ) -> Result<(), Memory>
        requires in_range { scope.now.path < length self.old.places.paths }
        requires inner_in_range { inner < length self.old.places.paths }
        ensures grows { OnOk result (Extends self.old.places self.new.places) }
        ensures rows { (p : Path) → slice_get self.old.places.paths scope.now.path ≡ Some p → (f : Frame) →
            slice_get self.old.places.paths inner ≡ Some (f ∷ p) →
            OnOk result (Adds self.old self.new (instance_rows p scope.now.wires.now pins.now f
            (map line_of (all_now ports.now)))) }
    {
        for port in ports {
            self.add_port(scope, pins, inner, port)?;
        }
        Ok(())
    }

    /// A port of an instance.
    fn add_port(
        &mut self,
        scope: &Scope,
        pins: &[Pin],
        inner: u32,
        port: &Wire,
    ) -> Result<(), Memory>
        requires in_range { scope.now.path < length self.old.places.paths }
        requires inner_in_range { inner < length self.old.places.paths }
        ensures grows { OnOk result (Extends self.old.places self.new.places) }
        ensures rows { (p : Path) → slice_get self.old.places.paths scope.now.path ≡ Some p → (q : Path) →
            slice_get self.old.places.paths inner ≡ Some q →
            OnOk result (Adds self.old self.new (port_joins port.now.role (points p scope.now.wires.now
            (signal_at pins.now port.now.name)) (wire_points q port.now.name 0 port.now.width))) }
    {
        let name = port.name.as_slice();
        let outside = self.places.points(scope, signal_at(pins, name))?;
        let inside = self
            .places
            .wire_points(scope.alloc, inner, name, port.width)?;
        self.join_port(port.role, outside.as_slice(), inside.as_slice())
    }

    /// A port of this role: an input is driven from outside, an output drives it.
    fn join_port(&mut self, role: Role, outside: &[Point], inside: &[Point]) -> Result<(), Memory>
        ensures places { self.new.places ≡ self.old.places }
        ensures rows { (outer inner : List rtl.Point) → ArePoints self.old.places.places outside.now outer →
            ArePoints self.old.places.places inside.now inner →
            OnOk result (Adds self.old self.new (port_joins role outer inner)) }
    {
        match role {
            Role::Input => self.join(inside, outside),
            Role::Output => self.join(outside, inside),
            Role::Inner | Role::Inout => Ok(()),
        }
    }
}
