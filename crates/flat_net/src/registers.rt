//! The storage cells that rules stand for.

ghost use Rattle.std.specs.Prelude.{◌≡◌, ◌<◌, ◌∷◌, [], Some, IfOk, OnOk, length, map, slice_get};
ghost use Rattle.rtl_bits.specs.declared.bit.Bit.{Bit};
ghost use Rattle.rtl_sig.specs.declared.sig.SigBit.{SigBit};
ghost use Rattle.rtl_ir.specs.Flat.Driver.{StorePoints};
ghost use Rattle.rtl_ir.specs.Flat.Place.{Path};
ghost use Rattle.rtl_ir.specs.Flat.Process.{rule_shape};
ghost use Rattle.rtl_ir.specs.Triggers.{trigger_of};
ghost use Rattle.flat_net.specs.Adds.{Adds};
ghost use Rattle.flat_net.specs.Known.{Extends};
ghost use Rattle.flat_net.specs.Registers.{
  AreRegisters,
  IsControl,
  bare_register,
  edge_register,
  level_register,
  loaded_register,
  register_row,
};
ghost use Rattle.flat_net.specs.Reads.{ArePins};
ghost use Rattle.flat_net.specs.Starts.{IsStart};

use crate::builder::Builder;
use crate::net::{Part, Point, Storage, StoreBit, StorePins};
use crate::places::Places;
use crate::scope::Scope;
use cell_types::{CellKind, Level, Levels, Port, Resets, Shape, Signs, StorageKind, Widths};
use rtl_bits::{Bit, Bits, Memory, Seq};
use rtl_ir::{Join, Trigger};
use rtl_sig::SigBit;
use std::alloc::Global;

/// A storage cell that a rule stands for: its kind, its levels, and what it reads beside its pin D.
#[derive(Clone, Copy)]
pub(crate) struct Register {
    kind: StorageKind,
    levels: Levels,
    pins: StorePins,
}

/// What a register reads of an edge or a level, and that level.
#[derive(Clone, Copy)]
pub(crate) struct Control {
    pub(crate) point: Point,
    pub(crate) level: Level,
}

/// A register that reads nothing but D.
pub(crate) fn bare_register(kind: StorageKind) -> Register
    ensures value { result ≡ bare_register kind }
{
    let none = Point::Constant(Bit::X);
    Register {
        kind,
        levels: Levels {
            clk: Level::Low,
            en: Level::Low,
            arst: Level::Low,
            srst: Level::Low,
            aload: Level::Low,
            set: Level::Low,
            clr: Level::Low,
        },
        pins: StorePins {
            clk: none,
            en: none,
            arst: none,
            srst: none,
            aload: none,
            ad: none,
            set: none,
            clr: none,
            d: none,
        },
    }
}

/// A flip-flop with this clock.
pub(crate) fn edge_register(clock: Control) -> Register
    ensures value { result ≡ edge_register clock }
{
    let mut register = bare_register(StorageKind::Dff);
    register.levels.clk = clock.level;
    register.pins.clk = clock.point;
    register
}

/// A latch with this enable.
pub(crate) fn level_register(enable: Control) -> Register
    ensures value { result ≡ level_register enable }
{
    let mut register = bare_register(StorageKind::Dlatch);
    register.levels.en = enable.level;
    register.pins.en = enable.point;
    register
}

/// A flip-flop with this clock that loads a bit while the other control acts.
pub(crate) fn loaded_register(clock: Control, load: Control, ad: Point) -> Register
    ensures value { result ≡ loaded_register clock load ad }
{
    let mut register = bare_register(StorageKind::Aldff);
    register.levels.clk = clock.level;
    register.pins.clk = clock.point;
    register.levels.aload = load.level;
    register.pins.aload = load.point;
    register.pins.ad = ad;
    register
}

/// The shape of a storage cell of this kind with these levels, one that no cell of a design has: it has no parameters.
fn rule_shape(alloc: Global, kind: StorageKind, levels: Levels) -> Shape
    ensures value { result ≡ rule_shape kind levels }
{
    Shape {
        kind: CellKind::Storage(kind),
        widths: Widths {
            a: 0,
            b: 0,
            s: 0,
            y: 0,
        },
        signs: Signs { a: false, b: false },
        offset: 0,
        width: 0,
        levels,
        resets: Resets {
            arst: Bits::make(alloc),
            srst: Bits::make(alloc),
        },
        port: Port {
            address: 0,
            clocked: false,
            number: 0,
            mask: Bits::make(alloc),
            words: 0,
            priority: Bits::make(alloc),
        },
    }
}

impl Builder {
    /// A register for the left sides of these places, which takes over their right sides.
    pub(crate) fn add_registers(
        &mut self,
        scope: &Scope,
        register: &Register,
        lines: &[Join],
    ) -> Result<(), Memory>
        requires in_range { scope.now.path < length self.old.places.paths }
        ensures grows { OnOk result (Extends self.old.places self.new.places) }
        ensures rows { (p : Path) → slice_get self.old.places.paths scope.now.path ≡ Some p → (start : SigBit → Bit) →
            IsStart scope.now.starts.now start →
            (they : StorePoints) → ArePins self.old.places.places register.now.pins they →
            OnOk result (Adds self.old self.new (map (register_row start p scope.now.wires.now register.now they)
            lines.now)) }
    {
        let bits = self.places.registers(scope, register, lines)?;
        let storage = Storage {
            shape: rule_shape(scope.alloc, register.kind, register.levels),
            bits,
        };
        self.parts
            .push(Part::Storage(Box::new(scope.alloc, storage)?))?;
        Ok(())
    }
}

impl Places {
    /// The bits of a register, each with its source.
    fn registers(
        &mut self,
        scope: &Scope,
        register: &Register,
        lines: &[Join],
    ) -> Result<Seq<StoreBit>, Memory>
        requires in_range { scope.now.path < length self.old.paths }
        ensures grows { OnOk result (Extends self.old self.new) }
        ensures value { (p : Path) → slice_get self.old.paths scope.now.path ≡ Some p → (start : SigBit → Bit) →
            IsStart scope.now.starts.now start →
            (they : StorePoints) → ArePins self.old.places register.now.pins they →
            IfOk result (λ bits.
            AreRegisters self.new.places start p scope.now.wires.now register.now they bits lines.now) }
    {
        let mut bits = Vec::with_capacity(scope.alloc, lines.len())?;
        for line in lines {
            bits.push(self.register(scope, register, *line)?)?;
        }
        Ok(Seq::from_vec(bits))
    }

    /// A bit of a register with its source.
    fn register(
        &mut self,
        scope: &Scope,
        register: &Register,
        line: Join,
    ) -> Result<StoreBit, Memory>
        requires in_range { scope.now.path < length self.old.paths }
        ensures grows { OnOk result (Extends self.old self.new) }
        ensures value { (p : Path) → slice_get self.old.paths scope.now.path ≡ Some p → (start : SigBit → Bit) →
            IsStart scope.now.starts.now start →
            (they : StorePoints) → ArePins self.old.places register.now.pins they →
            IfOk result (λ bit.
            AreRegisters self.new.places start p scope.now.wires.now register.now they (bit ∷ []) (line ∷ [])) }
    {
        let d = self.point(scope, line.source)?;
        let number = self.bit(scope, line.bit)?;
        Ok(StoreBit {
            number,
            at: 0,
            start: scope.starts.at(SigBit::Wire(line.bit)),
            pins: StorePins { d, ..register.pins },
        })
    }

    /// What a register reads of an edge or a level.
    pub(crate) fn control(&mut self, scope: &Scope, trigger: Trigger) -> Result<Control, Memory>
        requires in_range { scope.now.path < length self.old.paths }
        ensures grows { OnOk result (Extends self.old self.new) }
        ensures value { (p : Path) → slice_get self.old.paths scope.now.path ≡ Some p →
            IfOk result (λ control.
            IsControl self.new.places p scope.now.wires.now control (trigger_of trigger.entry)) }
    {
        Ok(Control {
            point: self.first_point(scope, trigger.signal)?,
            level: trigger.level,
        })
    }
}
