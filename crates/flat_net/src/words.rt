//! The words of memories, in numbers.

ghost use Rattle.std.specs.Prelude.{
  ◌≡◌,
  ◌+◌,
  ◌<◌,
  ◌∷◌,
  ◌++◌,
  [],
  List,
  Some,
  IfOk,
  OnOk,
  length,
  map,
  nat_abs,
  option_map,
  slice_get,
};
ghost use Rattle.std.proofs.Common.{Bor};
ghost use Rattle.rtl_ir.specs.declared.process.Event.{Event};
ghost use Rattle.rtl_ir.specs.Flat.Place.{Path};
ghost use Rattle.flat_net.specs.Known.{Extends};
ghost use Rattle.flat_net.specs.Memories.{
  AreBegins,
  ArePorts,
  AreRemembered,
  Begins,
  cell_trigger,
  edge_level,
  planned_rows,
  port_in,
  trigger_by,
  word_begins,
  words_begins,
};
ghost use Rattle.flat_net.specs.Registers.{IsControl};
ghost use Rattle.flat_net.specs.Words.{Ported};

use crate::memory::{Remembered, WordBit, WritePort};
use crate::places::{Places, number_at};
use crate::registers::Control;
use crate::scope::Scope;
use cell_types::Level;
use rtl_bits::{Bit, Bits, Copied, Memory, Seq};
use rtl_ir as ir;
use rtl_ir::{Event, MemPlan, Store, write_trigger};

impl Places {
    /// The words of a memory with this plan, which lines write too, the first of them in a rule with this event.
    pub(crate) fn remembered(
        &mut self,
        scope: &Scope,
        store: &Store,
        plan: &MemPlan,
        lines: &[ir::WritePort],
        event: Option<&Event>,
    ) -> Result<Remembered, Memory>
        requires in_range { scope.now.path < length self.old.paths }
        ensures grows { OnOk result (Extends self.old self.new) }
        ensures value { (p : Path) → slice_get self.old.paths scope.now.path ≡ Some p →
            IfOk result (λ words. AreRemembered self.new.places words (planned_rows p scope.now.wires.now store.now
            plan.now lines.now (option_map (λ (e : Bor Event). e.now) event.entry))) }
    {
        let mut ports = Vec::new(scope.alloc);
        self.put_ports(scope, plan.writes.as_slice(), &mut ports)?;
        self.put_ports(scope, lines, &mut ports)?;
        let clock = self.write_clock(scope, plan, event)?;
        let first = first_address(store);
        let name = store.name.as_slice();
        let bits = self.word_bits(scope, name, first, plan.words.as_slice())?;
        Ok(Remembered {
            clock: clock.point,
            level: clock.level,
            ports: Seq::from_vec(ports),
            bits,
        })
    }

    /// Puts the write ports last.
    fn put_ports(
        &mut self,
        scope: &Scope,
        writes: &[ir::WritePort],
        ports: &mut Vec<WritePort>,
    ) -> Result<(), Memory>
        requires in_range { scope.now.path < length self.old.paths }
        ensures grows { OnOk result (Extends self.old self.new) }
        ensures value { (p : Path) → slice_get self.old.paths scope.now.path ≡ Some p → (they : List Ported) →
            ArePorts self.old.places ports.old.items they →
            OnOk result (ArePorts self.new.places ports.new.items (they ++ map (port_in p scope.now.wires.now)
            writes.now)) }
    {
        for write in writes {
            let port = self.write_port(scope, write)?;
            ports.push(port)?;
        }
        Ok(())
    }

    /// A write port.
    fn write_port(&mut self, scope: &Scope, write: &ir::WritePort) -> Result<WritePort, Memory>
        requires in_range { scope.now.path < length self.old.paths }
        ensures grows { OnOk result (Extends self.old self.new) }
        ensures value { (p : Path) → slice_get self.old.paths scope.now.path ≡ Some p →
            IfOk result (λ port. ArePorts self.new.places (port ∷ []) (port_in p scope.now.wires.now write.now ∷ [])) }
    {
        let mask = write.mask.copy()?;
        let address = self.points(scope, write.address.as_slice())?;
        let enable = self.points(scope, write.enable.as_slice())?;
        let word = self.points(scope, write.data.as_slice())?;
        Ok(WritePort {
            number: write.number,
            mask,
            address,
            enable,
            word,
        })
    }

    /// The clock of the first write port: of a cell, where there is one, else of the first line.
    fn write_clock(
        &mut self,
        scope: &Scope,
        plan: &MemPlan,
        event: Option<&Event>,
    ) -> Result<Control, Memory>
        requires in_range { scope.now.path < length self.old.paths }
        ensures grows { OnOk result (Extends self.old self.new) }
        ensures value { (p : Path) → slice_get self.old.paths scope.now.path ≡ Some p →
            IfOk result (λ control. IsControl self.new.places p scope.now.wires.now control
            (trigger_by plan.now plan.now.writes (option_map (λ (e : Bor Event). e.now) event.entry))) }
    {
        let Some(event) = event else {
            return self.cell_clock(scope, plan);
        };
        if !plan.writes.as_slice().is_empty() {
            return self.cell_clock(scope, plan);
        }
        self.control(scope, write_trigger(event))
    }

    /// The clock of the first write port that is a cell.
    fn cell_clock(&mut self, scope: &Scope, plan: &MemPlan) -> Result<Control, Memory>
        requires in_range { scope.now.path < length self.old.paths }
        ensures grows { OnOk result (Extends self.old self.new) }
        ensures value { (p : Path) → slice_get self.old.paths scope.now.path ≡ Some p →
            IfOk result (λ control. IsControl self.new.places p scope.now.wires.now control (cell_trigger plan.now)) }
    {
        let point = self.point(scope, plan.clock)?;
        Ok(Control {
            point,
            level: edge_level(plan.rising),
        })
    }

    /// The bits of the words of a memory, from the word at the first address on.
    fn word_bits(
        &mut self,
        scope: &Scope,
        name: &[u8],
        first: u32,
        words: &[Bits],
    ) -> Result<Seq<WordBit>, Memory>
        requires in_range { scope.now.path < length self.old.paths }
        ensures grows { OnOk result (Extends self.old self.new) }
        ensures value { (p : Path) → slice_get self.old.paths scope.now.path ≡ Some p →
            IfOk result (λ bits. AreBegins self.new.places bits (words_begins p name.now first words.now)) }
    {
        let mut bits = Vec::new(scope.alloc);
        for at in 0..words.len() {
            let address = address_behind(first, at)?;
            self.put_word(scope, name, address, words[at].as_slice(), &mut bits)?;
        }
        Ok(Seq::from_vec(bits))
    }

    /// Puts the bits of the word at an address last.
    fn put_word(
        &mut self,
        scope: &Scope,
        name: &[u8],
        address: u32,
        word: &[Bit],
        bits: &mut Vec<WordBit>,
    ) -> Result<(), Memory>
        requires in_range { scope.now.path < length self.old.paths }
        ensures grows { OnOk result (Extends self.old self.new) }
        ensures value { (p : Path) → slice_get self.old.paths scope.now.path ≡ Some p → (they : List Begins) →
            AreBegins self.old.places bits.old.items they →
            OnOk result (AreBegins self.new.places bits.new.items (they ++ word_begins p name.now address 0 word.now)) }
    {
        for at in 0..word.len() {
            let place = number_at(at)?;
            let number = self.word_number(scope.path, name, address, place)?;
            bits.push(WordBit {
                number,
                start: word[at],
                address,
                at: place,
            })?;
        }
        Ok(())
    }
}

/// The level after an edge, true for a rising one.
fn edge_level(rising: bool) -> Level
    ensures value { result ≡ edge_level rising }
{
    if rising { Level::High } else { Level::Low }
}

/// The address of the first word.
pub(crate) fn first_address(store: &Store) -> u32
    ensures value { result ≡ nat_abs store.now.offset }
{
    store.offset.unsigned_abs()
}

/// The address so many words behind the first. One of 2^32 or more is taken for want of memory.
pub(crate) fn address_behind(first: u32, count: usize) -> Result<u32, Memory>
    ensures value { IfOk result (λ address. address ≡ first + count) }
{
    first.checked_add(number_at(count)?).ok_or(Memory)
}
