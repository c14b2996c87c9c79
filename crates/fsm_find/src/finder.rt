//! The search for machines.

ghost use Rattle.std.specs.Prelude.{◌≡◌, ◌≤◌, [], IfOk, Some, length, option_map, slice_get};
ghost use Rattle.rtl_ir.specs.declared.cell.Cell.{Cell};
ghost use Rattle.rtl_ir.specs.declared.machine.Machine.{Machine};
ghost use Rattle.rtl_ir.specs.Types.{Ports, table_ports};
ghost use Rattle.net_model.specs.Fsm.Find.{
  Tree,
  if_machine,
  machine_by,
  machine_of,
  made_machine,
  reset_value,
  start_bits,
};
ghost use Rattle.fsm_find.specs.Attributes.{init_bits};
ghost use Rattle.fsm_find.specs.Finder.{IsDraft, IsFinder};
ghost use Rattle.fsm_find.specs.Found.{IsFound};
ghost use Rattle.fsm_find.specs.Readers.{ArePlaces, are_read_well};
ghost use Rattle.fsm_find.specs.Starts.{AreStarts};
ghost use Rattle.fsm_find.specs.View.{IsView};

use crate::attributes::may_be_state;
use crate::machine::{all_fit, comparing, mark_outputs};
use crate::reach::Reach;
use crate::readers::{
    Places, Readers, cells_read_well, mark, marked_places, place_number, ports_read_well,
};
use crate::starts::{Starts, start_values, states_of};
use crate::tree::tree;
use crate::view::View;
use crate::whole_drivers::{Part, whole_drivers};
use fsm_parts::{SignalTable, cell_at, whole_wire};
use net_index::{BitTable, Drivers, Types};
use rtl_bits::{Bits, Memory, Seq};
use rtl_ir::{Cell, Machine, Module, PortTable, Wire};
use std::alloc::Global;

/// A wire that may be a state, at its place, and the place of the flip-flop whose whole Q it is.
#[derive(Drop)]
struct Candidate<'a> {
    view: View<'a>,
    place: u32,
    wire: &'a Wire,
    flop: usize,
}

/// A module in which machines are looked for, with what is known of it for all its wires.
#[derive(Drop)]
pub struct Finder<'a> {
    alloc: Global,
    body: &'a Module,
    types: Types<'a>,
    index: Drivers,
    forks: SignalTable,
    flops: SignalTable,
}

impl<'a> Finder<'a> {
    /// The module, whose cells may be instances of the modules of the table.
    pub fn of(alloc: Global, module: &'a Module, ports: &'a PortTable) -> Result<Finder<'a>, Memory>
        requires process_free { «module».now.processes ≡ [] }
        ensures value { IfOk result (λ finder. IsFinder finder (table_ports ports.now.modules)) }
        ensures body { IfOk result (λ finder. finder.body.now ≡ «module».now) }
    {
        let cells = module.cells.as_slice();
        Ok(Finder {
            alloc,
            body: module,
            types: Types::of_table(alloc, ports)?,
            index: Drivers::of(alloc, module, ports)?,
            forks: whole_drivers(alloc, Part::Tree, cells)?,
            flops: whole_drivers(alloc, Part::Flop, cells)?,
        })
    }

    /// The machine whose state the wire at this place holds, None where it is no state wire.
    pub fn find(&self, wire: u32) -> Result<Option<Machine>, Memory>
        ensures exact { IfOk result (λ machine. (ports : Ports) → IsFinder self.now ports →
            machine ≡ machine_of ports self.now.body.now wire) }
    {
        match wire_at(self.body.wires.as_slice(), wire as usize) {
            Some(record) => {
                let machine = self.find_at(wire, record)?;
                Ok(machine)
            }
            None => Ok(None),
        }
    }

    /// The machine whose state this wire at the place holds, None where it is no state wire.
    fn find_at(&self, place: u32, wire: &Wire) -> Result<Option<Machine>, Memory>
        ensures exact { IfOk result (λ machine. (ports : Ports) → IsFinder self.now ports →
            slice_get self.now.body.now.wires place ≡ Some «wire».now →
            machine ≡ machine_of ports self.now.body.now place) }
    {
        if !may_be_state(self.alloc, wire)? {
            return Ok(None);
        }
        let state = whole_wire(self.alloc, place, wire.width)?;
        let flop = self.flops.find(self.alloc, state.as_slice())?;
        let view = View {
            alloc: self.alloc,
            index: &self.index,
            forks: &self.forks,
            state,
        };
        match flop {
            Some(flop) => {
                let candidate = Candidate {
                    view,
                    place,
                    wire,
                    flop,
                };
                let machine = self.machine_by(&candidate)?;
                Ok(machine)
            }
            None => Ok(None),
        }
    }

    /// The machine of a wire that may be a state.
    fn machine_by(&self, candidate: &Candidate<'_>) -> Result<Option<Machine>, Memory>
        ensures exact { IfOk result (λ machine. (ports : Ports) → IsFinder self.now ports →
            IsView candidate.now.view ports self.now.body.now →
            start_bits self.now.body.now candidate.now.view.state ≡ init_bits candidate.now.wire.now →
            machine ≡ machine_by ports self.now.body.now candidate.now.place candidate.now.view.state
            (Some candidate.now.flop)) }
    {
        match cell_at(self.body.cells.as_slice(), candidate.flop) {
            Some(cell) => {
                let machine = self.of_cell(candidate, cell)?;
                Ok(machine)
            }
            None => Ok(None),
        }
    }

    /// The machine of a wire that may be a state, with this flip-flop.
    fn of_cell(&self, candidate: &Candidate<'_>, cell: &Cell) -> Result<Option<Machine>, Memory>
        ensures exact { IfOk result (λ machine. (ports : Ports) → IsFinder self.now ports →
            IsView candidate.now.view ports self.now.body.now →
            start_bits self.now.body.now candidate.now.view.state ≡ init_bits candidate.now.wire.now →
            slice_get self.now.body.now.cells candidate.now.flop ≡ Some cell.now →
            machine ≡ machine_by ports self.now.body.now candidate.now.place candidate.now.view.state
            (Some candidate.now.flop)) }
    {
        match tree(&candidate.view, self.body, cell)? {
            Some(reach) => {
                let machine = self.of_tree(candidate, cell, reach)?;
                Ok(machine)
            }
            None => Ok(None),
        }
    }

    /// The machine with this tree.
    fn of_tree(
        &self,
        candidate: &Candidate<'_>,
        cell: &Cell,
        reach: Reach,
    ) -> Result<Option<Machine>, Memory>
        ensures exact { IfOk result (λ machine. (ports : Ports) (t : Tree) → IsFinder self.now ports →
            IsView candidate.now.view ports self.now.body.now →
            start_bits self.now.body.now candidate.now.view.state ≡ init_bits candidate.now.wire.now →
            IsFound self.now.body.now reach t →
            machine ≡ if_machine ports self.now.body.now candidate.now.view.state cell.now
            (made_machine self.now.body.now candidate.now.place candidate.now.view.state candidate.now.flop cell.now
            t)) }
    {
        match start_values(self.alloc, candidate.wire, cell)? {
            Some(starts) => {
                let machine = self.of_starts(candidate, reach, starts)?;
                Ok(machine)
            }
            None => Ok(None),
        }
    }

    /// The machine with this tree, which may start from these values.
    fn of_starts(
        &self,
        candidate: &Candidate<'_>,
        reach: Reach,
        starts: Starts,
    ) -> Result<Option<Machine>, Memory>
        ensures exact { IfOk result (λ machine. (ports : Ports) (c : Cell) (t : Tree) → IsFinder self.now ports →
            IsView candidate.now.view ports self.now.body.now →
            AreStarts (reset_value c) (start_bits self.now.body.now candidate.now.view.state) starts →
            IsFound self.now.body.now reach t →
            machine ≡ if_machine ports self.now.body.now candidate.now.view.state c
            (made_machine self.now.body.now candidate.now.place candidate.now.view.state candidate.now.flop c t)) }
    {
        let width = candidate.view.state.as_slice().len();
        match states_of(self.alloc, width, reach.known, &starts)? {
            Some(states) => {
                let found = reach.found;
                let machine = self.of_states(candidate, found, states, starts)?;
                Ok(machine)
            }
            None => Ok(None),
        }
    }

    /// The machine with these states and the forks that are marked, where those who read it may.
    fn of_states(
        &self,
        candidate: &Candidate<'_>,
        found: Vec<bool>,
        states: Vec<Bits>,
        starts: Starts,
    ) -> Result<Option<Machine>, Memory>
        requires some { 1 ≤ length states.items }
        requires few { length states.items ≤ 64 }
        ensures exact { IfOk result (λ machine. (ports : Ports) (c : Cell) (made : Machine) → IsFinder self.now ports →
            IsView candidate.now.view ports self.now.body.now →
            IsDraft self.now.body.now candidate.now.view.state candidate.now.place candidate.now.flop found.items
            states.items starts made →
            machine ≡ if_machine ports self.now.body.now candidate.now.view.state c made) }
    {
        let muxes = marked_places(self.alloc, found.as_slice())?;
        let view = &candidate.view;
        let flop = candidate.flop;
        let places = Places { forks: found, flop };
        if !self.is_read_well(view, &places, muxes.as_slice())? {
            return Ok(None);
        }
        if !all_fit(view, states.len(), self.body, muxes.as_slice())? {
            return Ok(None);
        }
        let flop = place_number(flop)?;
        let compares = comparing(view, self.body)?;
        Ok(Some(Machine {
            wire: candidate.place,
            flop,
            muxes,
            compares,
            states: Seq::from_vec(states),
            reset: starts.reset,
            start: starts.start,
        }))
    }

    /// Whether the state and the tree are read by no pin but those that may, and by no output port.
    fn is_read_well(&self, view: &View, places: &Places, muxes: &[u32]) -> Result<bool, Memory>
        ensures value { IfOk result (λ well. (ports : Ports) → IsFinder self.now ports →
            IsView view.now ports self.now.body.now → ArePlaces muxes.now places.now.forks.items →
            well ≡ are_read_well ports self.now.body.now muxes.now places.now.flop view.now.state) }
    {
        let cells = self.body.cells.as_slice();
        let wires = self.body.wires.as_slice();
        let mut state = BitTable::of(self.alloc, wires)?;
        mark(&mut state, view.state.as_slice())?;
        let mut outputs = BitTable::of(self.alloc, wires)?;
        mark_outputs(&mut outputs, self.body, muxes)?;
        let readers = Readers {
            view,
            types: &self.types,
            machine: places,
        };
        if !cells_read_well(&readers, &state, &outputs, cells)? {
            return Ok(false);
        }
        mark_outputs(&mut state, self.body, muxes)?;
        let well = ports_read_well(view, &state, wires)?;
        Ok(well)
    }
}

/// The wire at a place of the list, where there is one.
fn wire_at(wires: &[Wire], at: usize) -> Option<&Wire>
    ensures value { option_map (λ wire. wire.now) result ≡ slice_get wires.now at }
{
    wires.get(at)
}
