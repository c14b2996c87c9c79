//! The bits of signals, as what drivers read.

ghost use Rattle.std.specs.Prelude.{◌≡◌, ◌<◌, Some, IfOk, OnOk, length, slice_get};
ghost use Rattle.rtl_ir.specs.Flat.Place.{Path};
ghost use Rattle.rtl_ir.specs.Flat.Point.{bit_place, name_or_empty, pin_points, point, point_at, points, wire_points};
ghost use Rattle.flat_net.specs.Known.{Extends};
ghost use Rattle.flat_net.specs.Reads.{ArePoints, IsPoint};

use crate::net::Point;
use crate::places::Places;
use crate::scope::Scope;
use cell_types::PinName;
use rtl_bits::{Bit, Memory, Seq};
use rtl_ir::{Pin, Wire, pin_signal};
use rtl_sig::{SigBit, WireBit};
use std::alloc::Global;

impl Places {
    /// A bit of a signal.
    pub(crate) fn point(&mut self, scope: &Scope, bit: SigBit) -> Result<Point, Memory>
        requires in_range { scope.now.path < length self.old.paths }
        ensures grows { OnOk result (Extends self.old self.new) }
        ensures value { (p : Path) → slice_get self.old.paths scope.now.path ≡ Some p →
            IfOk result (λ it. IsPoint self.new.places it (point p scope.now.wires.now bit)) }
    {
        match bit {
            SigBit::Fixed(value) => Ok(Point::Constant(value)),
            SigBit::Wire(bit) => Ok(Point::At(self.bit(scope, bit)?)),
        }
    }

    /// The lowest bit of a signal, the constant x where there is none.
    pub(crate) fn first_point(&mut self, scope: &Scope, signal: &[SigBit]) -> Result<Point, Memory>
        requires in_range { scope.now.path < length self.old.paths }
        ensures grows { OnOk result (Extends self.old self.new) }
        ensures value { (p : Path) → slice_get self.old.paths scope.now.path ≡ Some p →
            IfOk result (λ it. IsPoint self.new.places it (point_at (points p scope.now.wires.now signal.now) 0)) }
    {
        match signal.first() {
            Some(bit) => self.point(scope, *bit),
            None => Ok(Point::Constant(Bit::X)),
        }
    }

    /// The number of a bit of a wire.
    pub(crate) fn bit(&mut self, scope: &Scope, bit: WireBit) -> Result<u32, Memory>
        requires in_range { scope.now.path < length self.old.paths }
        ensures grows { OnOk result (Extends self.old self.new) }
        ensures value { (p : Path) → slice_get self.old.paths scope.now.path ≡ Some p →
            IfOk result (λ number. slice_get self.new.places number ≡ Some (bit_place p scope.now.wires.now bit)) }
    {
        self.number(scope.path, name_of(scope.wires, bit.wire), bit.at)
    }

    /// The bits of a signal.
    pub(crate) fn points(&mut self, scope: &Scope, signal: &[SigBit]) -> Result<Seq<Point>, Memory>
        requires in_range { scope.now.path < length self.old.paths }
        ensures grows { OnOk result (Extends self.old self.new) }
        ensures value { (p : Path) → slice_get self.old.paths scope.now.path ≡ Some p →
            IfOk result (λ they. ArePoints self.new.places they (points p scope.now.wires.now signal.now)) }
    {
        let mut points = Vec::with_capacity(scope.alloc, signal.len())?;
        for bit in signal {
            points.push(self.point(scope, *bit)?)?;
        }
        Ok(Seq::from_vec(points))
    }

    /// The bits at a pin of a cell of the library.
    pub(crate) fn pin_points(
        &mut self,
        scope: &Scope,
        pins: &[Pin],
        name: PinName,
    ) -> Result<Seq<Point>, Memory>
        requires in_range { scope.now.path < length self.old.paths }
        ensures grows { OnOk result (Extends self.old self.new) }
        ensures value { (p : Path) → slice_get self.old.paths scope.now.path ≡ Some p →
            IfOk result (λ they. ArePoints self.new.places they (pin_points p scope.now.wires.now pins.now name)) }
    {
        self.points(scope, pin_signal(pins, name))
    }

    /// The bits of the wire of this name, as many as it is wide.
    pub(crate) fn wire_points(
        &mut self,
        alloc: Global,
        path: u32,
        name: &[u8],
        width: u32,
    ) -> Result<Seq<Point>, Memory>
        requires in_range { path < length self.old.paths }
        ensures grows { OnOk result (Extends self.old self.new) }
        ensures value { (p : Path) → slice_get self.old.paths path ≡ Some p →
            IfOk result (λ they. ArePoints self.new.places they (wire_points p name.now 0 width)) }
    {
        let mut points = Vec::with_capacity(alloc, width as usize)?;
        for at in 0..width {
            points.push(Point::At(self.number(path, name, at)?))?;
        }
        Ok(Seq::from_vec(points))
    }
}

/// The name of a wire, no characters where there is none.
fn name_of(wires: &[Wire], at: u32) -> &[u8]
    ensures value { result.now ≡ name_or_empty (slice_get wires.now at) }
{
    match wires.get(at as usize) {
        Some(wire) => wire.name.as_slice(),
        None => &[],
    }
}
