//! Cells with another signal at one pin.

ghost use Rattle.std.specs.Prelude.{◌≡◌, IfOk, map};
ghost use Rattle.opt_more.specs.Changed.{renumbered, repinned, with_inputs, with_signal, with_width};

use cell_types::{ParamName, PinName};
use rtl_bits::{Copied, Memory, Seq};
use rtl_ir::{Cell, CellParam, Pin, integer_param, pin_of, signal_at};
use rtl_sig::{SigBit, SigSpec};
use std::alloc::Global;

/// The cell with another signal at A, as wide as that is.
pub(crate) fn with_inputs(alloc: Global, bits: SigSpec, cell: Cell) -> Result<Cell, Memory>
    ensures value { IfOk result (λ after. after ≡ with_inputs bits cell) }
{
    let old = signal_at(cell.pins.as_slice(), PinName::A.text()).len();
    let params = with_width(alloc, old, bits.as_slice().len(), cell.params)?;
    let pins = with_signal(alloc, PinName::A, bits.as_slice(), cell.pins.as_slice())?;
    Ok(Cell {
        params,
        pins,
        kind_name: cell.kind_name,
        name: cell.name,
        attributes: cell.attributes,
    })
}

/// The parameters with another width of A: it is rewritten where it differs.
fn with_width(
    alloc: Global,
    old: usize,
    new: usize,
    params: Seq<CellParam>,
) -> Result<Seq<CellParam>, Memory>
    ensures value { IfOk result (λ after. after ≡ with_width old new params) }
{
    if old == new {
        return Ok(params);
    }
    all_renumbered(alloc, new, params.as_slice())
}

/// The parameters with this width of A.
fn all_renumbered(
    alloc: Global,
    width: usize,
    params: &[CellParam],
) -> Result<Seq<CellParam>, Memory>
    ensures value { IfOk result (λ after. after ≡ map (renumbered width) params.now) }
{
    let mut after = Vec::with_capacity(alloc, params.len())?;
    for param in params {
        after.push(renumbered(alloc, width, param)?)?;
    }
    Ok(Seq::from_vec(after))
}

/// The parameter, with a number in place of its value where it is the width of A.
fn renumbered(alloc: Global, width: usize, param: &CellParam) -> Result<CellParam, Memory>
    ensures value { IfOk result (λ after. after ≡ renumbered width param.now) }
{
    if param.name.as_slice() == ParamName::AWidth.text() {
        integer_param(alloc, ParamName::AWidth, width)
    } else {
        param.copy()
    }
}

/// The pins with a signal at the one of this name.
pub(crate) fn with_signal(
    alloc: Global,
    name: PinName,
    signal: &[SigBit],
    pins: &[Pin],
) -> Result<Seq<Pin>, Memory>
    ensures value { IfOk result (λ after. after ≡ with_signal name signal.now pins.now) }
{
    let mut after = Vec::with_capacity(alloc, pins.len())?;
    for pin in pins {
        after.push(repinned(alloc, name, signal, pin)?)?;
    }
    Ok(Seq::from_vec(after))
}

/// The pin, with a signal in place of its own where it has this name.
fn repinned(alloc: Global, name: PinName, signal: &[SigBit], pin: &Pin) -> Result<Pin, Memory>
    ensures value { IfOk result (λ after. after ≡ repinned name signal.now pin.now) }
{
    if pin.name.as_slice() == name.text() {
        pin_of(alloc, name, signal)
    } else {
        pin.copy()
    }
}
