//! Which modules of an edited design are looked at again.

ghost use Rattle.std.specs.Prelude.{◌≡◌, ◌<◌, IfOk, OnOk, Some, length, true, if◌then◌else◌};
ghost use Rattle.rtl_sig.specs.Names.{has_name, with_name};
ghost use Rattle.rtl_ir.specs.Types.{design_ports, port_lines};
ghost use Rattle.net_model.specs.Within.{Each};
ghost use Rattle.design_edit.specs.Table.{ArePlaces};
ghost use Rattle.rtl_check.specs.Due.{IsNoted, KeepsPorts, is_due, ports_at, sees};

use crate::ports::same_ports;
use design_edit::{Places, places_of};
use rtl_bits::Memory;
use rtl_ir::{Cell, Module, Wire};
use rtl_sig::Names;
use std::alloc::Global;

/// The names that an edit of a design is about.
#[derive(Drop)]
pub(crate) struct Due {
    /// Those of the modules that are put in.
    pub(crate) edited: Names,
    /// Those that get or lose their module, and those whose module gets other ports.
    pub(crate) moved: Names,
}

impl Due {
    /// What is due once these modules take the places of those of their names among the others.
    pub(crate) fn of_edits(
        alloc: Global,
        modules: &[Module],
        edits: &[Module],
    ) -> Result<Due, Memory>
        ensures noted { IfOk result (λ due. Each (IsNoted (design_ports modules.now) due) edits.now) }
    {
        let places = places_of(alloc, modules)?;
        let mut due = Due {
            edited: Names::make(alloc),
            moved: Names::make(alloc),
        };
        for edit in edits {
            let keeps = keeps_ports(&places, modules, edit);
            due.note(edit.id.as_slice(), keeps)?;
        }
        Ok(due)
    }

    /// What is due once the module of this name is taken away.
    pub(crate) fn of_removal(alloc: Global, name: &[u8]) -> Result<Due, Memory>
        ensures moved { IfOk result (λ due. has_name due.moved name.now ≡ true) }
    {
        let mut moved = Names::make(alloc);
        moved.intern(name)?;
        Ok(Due {
            edited: Names::make(alloc),
            moved,
        })
    }

    /// Notes the name of a module that is put in, and whether it keeps the ports of its name.
    fn note(&mut self, name: &[u8], keeps: bool) -> Result<(), Memory>
        ensures edited { OnOk result (self.new.edited ≡ with_name self.old.edited name.now) }
        ensures moved { OnOk result (self.new.moved ≡
            (if keeps then self.old.moved else with_name self.old.moved name.now)) }
    {
        self.edited.intern(name)?;
        if !keeps {
            self.moved.intern(name)?;
        }
        Ok(())
    }

    /// Whether the module is looked at again.
    pub(crate) fn has(&self, body: &Module) -> bool
        ensures value { result ≡ is_due self.now body.now }
    {
        self.edited.find(body.id.as_slice()).is_some() || sees(&self.moved, body.cells.as_slice())
    }
}

/// Whether the module has the ports of the module of its name.
fn keeps_ports(places: &Places, modules: &[Module], edit: &Module) -> bool
    requires placed { ArePlaces places.now modules.now }
    ensures keeps { result ≡ true → KeepsPorts (design_ports modules.now) edit.now }
{
    match places.get(edit.id.as_slice()) {
        Some(at) => has_ports(modules, *at, edit.wires.as_slice()),
        None => false,
    }
}

/// Whether the module at the place has the ports that are among these wires.
fn has_ports(modules: &[Module], at: usize, wires: &[Wire]) -> bool
    requires in_range { at < length modules.now }
    ensures same { result ≡ true → ports_at modules.now at ≡ Some (port_lines wires.now) }
{
    same_ports(modules[at].wires.as_slice(), wires)
}

/// Whether one of the cells has a type of these names.
fn sees(names: &Names, cells: &[Cell]) -> bool
    ensures value { result ≡ sees names.now cells.now }
{
    // Most edits move no ports.
    if names.count() == 0 {
        return false;
    }
    for cell in cells {
        if names.find(cell.kind_name.as_slice()).is_some() {
            return true;
        }
    }
    false
}
