//! Names for copies.

ghost use Rattle.std.specs.Prelude.{◌≡◌, ◌+◌, ◌-◌, ◌<◌, ◌&&◌, ◌==◌, nat_le, length, List, ℕ, Err, IfOk, OnOk};
ghost use Rattle.rtl_ir.specs.Build.{Building, building_of, made_name};
ghost use Rattle.flat_pass.specs.Counts.{AreNames, Counted, count_of};
ghost use Rattle.flat_pass.specs.Flat.{copy_name, dotted, next_after};

use crate::counts::Counts;
use crate::names::{cell_names, process_names, store_names, wire_names};
use net_index::{PassFault, first_number, made_name};
use rtl_bits::{Memory, Text};
use rtl_ir::Module;
use rtl_ir::limits::MAX_FRESH;
use std::alloc::Global;

/// The longest name of a copy that is no fresh name.
const MAX_NAME: usize = 1_024;

/// The names of a module that is added to.
#[derive(Drop)]
pub(crate) struct Namer {
    pub(crate) alloc: Global,
    pub(crate) counts: Counts,
    /// The number of the next fresh name.
    pub(crate) next: u32,
}

impl Namer {
    /// The names of a module. Fresh names go on from the greatest number that one of them has.
    pub(crate) fn of(alloc: Global, module: &Module) -> Result<Namer, Memory>
        ensures value { IfOk result (λ namer. AreNames namer (building_of «module».now)) }
    {
        let mut counts = Counts::make(alloc);
        counts.add_all(wire_names(alloc, module.wires.as_slice())?.as_slice())?;
        counts.add_all(store_names(alloc, module.memories.as_slice())?.as_slice())?;
        counts.add_all(cell_names(alloc, module.cells.as_slice())?.as_slice())?;
        counts.add_all(process_names(alloc, module.processes.as_slice())?.as_slice())?;
        let next = first_number(module);
        Ok(Namer {
            alloc,
            counts,
            next,
        })
    }

    /// The name of the copy of an item at an instance, which stands once more from then on.
    pub(crate) fn name(&mut self, instance: &[u8], item: &[u8]) -> Result<Text, PassFault>
        ensures name { IfOk result (λ name. (b : Building) → AreNames self.old b →
            name ≡ copy_name b (dotted instance.now item.now)) }
        ensures next { OnOk result ((b : Building) → AreNames self.old b →
            self.new.next ≡ next_after b (dotted instance.now item.now)) }
        ensures small { OnOk result ((b : Building) → AreNames self.old b → self.new.next < 1000000001) }
        ensures counts { IfOk result (λ name.
            Counted self.old.counts self.new.counts name (count_of self.old.counts name + 1)) }
        ensures over { result ≡ Err PassFault.Over → (b : Building) → AreNames self.old b →
            1000000000 < next_after b (dotted instance.now item.now) }
    {
        let name = self.free_name(dotted(self.alloc, instance, item)?)?;
        self.counts.add(name.as_slice())?;
        Ok(name)
    }

    /// The name where it is free, else a fresh one.
    fn free_name(&mut self, name: Text) -> Result<Text, PassFault>
        ensures name { IfOk result (λ free. (b : Building) → AreNames self.old b → free ≡ copy_name b name) }
        ensures next { OnOk result ((b : Building) → AreNames self.old b → self.new.next ≡ next_after b name) }
        ensures small { OnOk result ((b : Building) → AreNames self.old b → self.new.next < 1000000001) }
        ensures counts { self.new.counts ≡ self.old.counts }
        ensures over { result ≡ Err PassFault.Over → (b : Building) → AreNames self.old b →
            1000000000 < next_after b name }
    {
        if self.is_free(name.as_slice()) {
            return Ok(name);
        }
        self.fresh()
    }

    /// Whether a copy may have the name.
    fn is_free(&self, name: &[u8]) -> bool
        ensures value { result ≡ (nat_le (length name.now) 1024 && (count_of self.now.counts name.now == 0)) }
    {
        name.len() <= MAX_NAME && self.counts.get(name) == 0
    }

    /// The next fresh name.
    fn fresh(&mut self) -> Result<Text, PassFault>
        ensures name { IfOk result (λ name. name ≡ made_name self.old.next) }
        ensures next { OnOk result (self.new.next ≡ self.old.next + 1) }
        ensures small { OnOk result (self.new.next < 1000000001) }
        ensures counts { self.new.counts ≡ self.old.counts }
        ensures over { result ≡ Err PassFault.Over → 999999999 < self.old.next }
    {
        if self.next > MAX_FRESH {
            return Err(PassFault::Over);
        }
        let fresh = made_name(self.alloc, self.next)?;
        self.next += 1;
        Ok(fresh)
    }

    /// What has the name is gone.
    pub(crate) fn release(&mut self, name: &[u8]) -> Result<(), Memory>
        ensures counts { OnOk result
            (Counted self.old.counts self.new.counts name.now (count_of self.old.counts name.now - 1)) }
        ensures next { self.new.next ≡ self.old.next }
    {
        self.counts.remove(name)
    }
}

/// The name that a copy is meant to have: the instance's name, a dot, and the item's name without its first byte.
fn dotted(alloc: Global, instance: &[u8], item: &[u8]) -> Result<Text, Memory>
    ensures value { IfOk result (λ name. name ≡ dotted instance.now item.now) }
{
    let mut name = Text::from_slice(alloc, instance)?;
    name.push(b'.')?;
    if let [_first, rest @ ..] = item {
        name.extend(rest)?;
    }
    Ok(name)
}
