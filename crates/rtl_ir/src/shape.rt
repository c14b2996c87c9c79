//! The kinds and the shapes of cells.

ghost use Rattle.std.specs.Prelude.{◌≡◌, ◌≢◌, IfErr, IfOk, OnOk, None, Some};
ghost use Rattle.cell_types.specs.Bounds.{KeepsBounds};
ghost use Rattle.rtl_ir.specs.Faults.Cells.{misfit, pin_widths};
ghost use Rattle.rtl_ir.specs.Flat.Cell.{cell_kind, cell_shape};

use crate::cell::{Cell, Pin};
use crate::parameters::given_params;
use cell_types::{CellFault, CellKind, PinWidth, Shape, kind_of, shape_of};
use rtl_bits::{Copied, Memory};
use std::alloc::Global;

/// The kind of a cell of the library, none of an instance.
#[tactic(auto, unfolding(crate::specs::Flat::Cell::cell_kind))]
pub fn cell_kind(cell: &Cell) -> Option<CellKind>
    ensures value { result ≡ cell_kind cell.now }
{
    kind_of(cell.kind_name.as_slice())
}

/// The shape of a cell of this kind, or the first fault of its parameters and pins.
pub fn cell_shape(alloc: Global, kind: CellKind, cell: &Cell) -> Result<Shape, CellFault>
    ensures shape { IfOk result (λ shape. (misfit kind cell.now ≡ None) × (shape ≡ cell_shape kind cell.now.params)) }
    ensures fault { IfErr result (λ fault. fault ≢ CellFault.Memory → misfit kind cell.now ≡ Some fault) }
    ensures bounds { IfOk result KeepsBounds }
{
    let params = given_params(alloc, cell.params.as_slice())?;
    let pins = pin_widths(alloc, cell.pins.as_slice())?;
    shape_of(alloc, kind, params.as_slice(), pins.as_slice())
}

/// The shape of a cell that fits its kind, as each cell of a checked design does: then memory alone can be missing. A
/// cell that does not fit is answered with `Memory` too.
pub fn fitting_shape(alloc: Global, kind: CellKind, cell: &Cell) -> Result<Shape, Memory>
    ensures value { IfOk result (λ shape. shape ≡ cell_shape kind cell.now.params) }
    ensures fits { OnOk result (misfit kind cell.now ≡ None) }
    ensures bounds { IfOk result KeepsBounds }
{
    cell_shape(alloc, kind, cell).ok().ok_or(Memory)
}

/// The pins by their widths. More than 2^32 bits, which no signal of a design has, are answered with `Memory`.
fn pin_widths(alloc: Global, pins: &[Pin]) -> Result<Vec<PinWidth>, Memory>
    ensures value { IfOk result (λ widths. widths.items ≡ pin_widths pins.now) }
{
    let mut widths = Vec::with_capacity(alloc, pins.len())?;
    for pin in pins {
        let width = u32::try_from(pin.sig.as_slice().len()).ok().ok_or(Memory)?;
        widths.push(PinWidth {
            name: pin.name.copy()?,
            width,
        })?;
    }
    Ok(widths)
}
