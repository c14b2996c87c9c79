//! The parts of combinational cells.

ghost use Rattle.std.specs.Prelude.{◌≡◌, ◌<◌, [], ◌∷◌, Some, IfOk, OnOk, length, slice_get};
ghost use Rattle.rtl_ir.specs.Flat.Cell.{cell_shape, worked_rows};
ghost use Rattle.rtl_ir.specs.Flat.Place.{Path};
ghost use Rattle.flat_net.specs.Adds.{Adds};
ghost use Rattle.flat_net.specs.Cells.{IsLogic, PutsOutputs};
ghost use Rattle.flat_net.specs.Known.{Extends};

use crate::builder::Builder;
use crate::net::{Logic, Output, Part, Point};
use crate::places::Places;
use crate::scope::Scope;
use cell_types::{CellKind, PinName};
use rtl_bits::{Memory, Seq};
use rtl_ir::{Cell, fitting_shape};
use std::alloc::Global;

impl Builder {
    /// A combinational cell of this kind.
    pub(crate) fn add_logic(
        &mut self,
        scope: &Scope,
        cell: &Cell,
        kind: CellKind,
    ) -> Result<(), Memory>
        requires in_range { scope.now.path < length self.old.places.paths }
        ensures grows { OnOk result (Extends self.old.places self.new.places) }
        ensures rows { (p : Path) → slice_get self.old.places.paths scope.now.path ≡ Some p →
            OnOk result (Adds self.old self.new (worked_rows p scope.now.wires.now cell.now.pins
            (cell_shape kind cell.now.params))) }
    {
        let logic = self.places.logic(scope, cell, kind)?;
        self.parts.push(Part::Logic(Box::new(scope.alloc, logic)?))?;
        Ok(())
    }
}

impl Places {
    /// A combinational cell of this kind, in numbers.
    fn logic(&mut self, scope: &Scope, cell: &Cell, kind: CellKind) -> Result<Logic, Memory>
        requires in_range { scope.now.path < length self.old.paths }
        ensures grows { OnOk result (Extends self.old self.new) }
        ensures value { (p : Path) → slice_get self.old.paths scope.now.path ≡ Some p →
            IfOk result (λ logic. IsLogic self.new.places logic (worked_rows p scope.now.wires.now cell.now.pins
            (cell_shape kind cell.now.params))) }
    {
        let pins = cell.pins.as_slice();
        let a = self.pin_points(scope, pins, PinName::A)?;
        let b = self.pin_points(scope, pins, PinName::B)?;
        let s = self.pin_points(scope, pins, PinName::S)?;
        let y = self.pin_points(scope, pins, PinName::Y)?;
        Ok(Logic {
            shape: fitting_shape(scope.alloc, kind, cell)?,
            a,
            b,
            s,
            outputs: outputs(scope.alloc, y.as_slice())?,
        })
    }
}

/// The bits of an output. More than 2^32 are taken for want of memory.
pub(crate) fn outputs(alloc: Global, points: &[Point]) -> Result<Seq<Output>, Memory>
    ensures value { IfOk result (λ outputs. PutsOutputs 0 [] outputs points.now) }
{
    let mut outputs = Vec::with_capacity(alloc, points.len())?;
    for at in 0..points.len() {
        put_output(&mut outputs, points[at], at)?;
    }
    Ok(Seq::from_vec(outputs))
}

/// The bit at a place of an output, where it is no constant.
fn put_output(outputs: &mut Vec<Output>, point: Point, at: usize) -> Result<(), Memory>
    ensures value { OnOk result (PutsOutputs at outputs.old.items outputs.new.items (point ∷ [])) }
{
    if let Point::At(number) = point {
        let at = u32::try_from(at).ok().ok_or(Memory)?;
        outputs.push(Output { number, at })?;
    }
    Ok(())
}
