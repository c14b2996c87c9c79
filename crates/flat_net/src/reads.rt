//! What the bits of storage cells read.

ghost use Rattle.std.specs.Prelude.{◌≡◌, ◌<◌, Some, IfOk, OnOk, length, slice_get};
ghost use Rattle.rtl_ir.specs.Flat.Cell.{gate_store, word_store};
ghost use Rattle.rtl_ir.specs.Flat.Place.{Path};
ghost use Rattle.rtl_ir.specs.Flat.Point.{pin_points, point_at};
ghost use Rattle.flat_net.specs.Cells.{AreReads, listed_point, reads_at};
ghost use Rattle.flat_net.specs.Known.{Extends};
ghost use Rattle.flat_net.specs.Reads.{IsPoint};

use crate::net::{Point, StorePins};
use crate::places::Places;
use crate::scope::Scope;
use cell_types::PinName;
use rtl_bits::{Bit, Memory, Seq};
use rtl_ir::{Pin, pin_signal};

/// What the bits of a storage cell on words read: of the controls the one bit, else each its own bit.
#[derive(Drop)]
pub(crate) struct WordPins {
    pub(crate) clk: Point,
    pub(crate) en: Point,
    pub(crate) arst: Point,
    pub(crate) srst: Point,
    pub(crate) aload: Point,
    pub(crate) ad: Seq<Point>,
    pub(crate) set: Seq<Point>,
    pub(crate) clr: Seq<Point>,
    pub(crate) d: Seq<Point>,
}

/// What the bits of a storage cell read.
#[derive(Drop)]
pub(crate) enum Reads {
    Word(WordPins),
    Gate(StorePins),
}

impl Reads {
    /// What the bit at a place reads.
    pub(crate) fn at(&self, at: usize) -> StorePins
        ensures value { result ≡ reads_at self.now at }
    {
        match self {
            Reads::Word(pins) => StorePins {
                clk: pins.clk,
                en: pins.en,
                arst: pins.arst,
                srst: pins.srst,
                aload: pins.aload,
                ad: listed_point(pins.ad.as_slice(), at),
                set: listed_point(pins.set.as_slice(), at),
                clr: listed_point(pins.clr.as_slice(), at),
                d: listed_point(pins.d.as_slice(), at),
            },
            Reads::Gate(pins) => *pins,
        }
    }
}

/// The point at a place, past the end the constant x.
fn listed_point(points: &[Point], at: usize) -> Point
    ensures value { result ≡ listed_point points.now at }
{
    match points.get(at) {
        Some(point) => *point,
        None => Point::Constant(Bit::X),
    }
}

impl Places {
    /// The lowest bit at a pin, the constant x where there is none.
    fn pin_point(&mut self, scope: &Scope, pins: &[Pin], name: PinName) -> Result<Point, Memory>
        requires in_range { scope.now.path < length self.old.paths }
        ensures grows { OnOk result (Extends self.old self.new) }
        ensures value { (p : Path) → slice_get self.old.paths scope.now.path ≡ Some p →
            IfOk result (λ it.
            IsPoint self.new.places it (point_at (pin_points p scope.now.wires.now pins.now name) 0)) }
    {
        self.first_point(scope, pin_signal(pins, name))
    }

    /// What the bits of a storage cell on words read.
    pub(crate) fn word_reads(&mut self, scope: &Scope, pins: &[Pin]) -> Result<Reads, Memory>
        requires in_range { scope.now.path < length self.old.paths }
        ensures grows { OnOk result (Extends self.old self.new) }
        ensures value { (p : Path) → slice_get self.old.paths scope.now.path ≡ Some p →
            IfOk result (λ reads. AreReads self.new.places reads (word_store p scope.now.wires.now pins.now)) }
    {
        Ok(Reads::Word(WordPins {
            clk: self.pin_point(scope, pins, PinName::Clk)?,
            en: self.pin_point(scope, pins, PinName::En)?,
            arst: self.pin_point(scope, pins, PinName::Arst)?,
            srst: self.pin_point(scope, pins, PinName::Srst)?,
            aload: self.pin_point(scope, pins, PinName::Aload)?,
            ad: self.pin_points(scope, pins, PinName::Ad)?,
            set: self.pin_points(scope, pins, PinName::Set)?,
            clr: self.pin_points(scope, pins, PinName::Clr)?,
            d: self.pin_points(scope, pins, PinName::D)?,
        }))
    }

    /// What the bit of a storage gate reads.
    pub(crate) fn gate_reads(&mut self, scope: &Scope, pins: &[Pin]) -> Result<Reads, Memory>
        requires in_range { scope.now.path < length self.old.paths }
        ensures grows { OnOk result (Extends self.old self.new) }
        ensures value { (p : Path) → slice_get self.old.paths scope.now.path ≡ Some p →
            IfOk result (λ reads. AreReads self.new.places reads (gate_store p scope.now.wires.now pins.now)) }
    {
        let reset = self.pin_point(scope, pins, PinName::R)?;
        Ok(Reads::Gate(StorePins {
            clk: self.pin_point(scope, pins, PinName::C)?,
            en: self.pin_point(scope, pins, PinName::E)?,
            arst: reset,
            srst: reset,
            aload: self.pin_point(scope, pins, PinName::L)?,
            ad: self.pin_point(scope, pins, PinName::Ad)?,
            set: self.pin_point(scope, pins, PinName::S)?,
            clr: reset,
            d: self.pin_point(scope, pins, PinName::D)?,
        }))
    }
}
